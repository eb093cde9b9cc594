//! How many tuples of values the free variables of a model have.
ghost use Rattle.std.specs.Prelude.{◌≡◌, ◌≤◌, ◌↔◌, min, IsTrue};
ghost use Rattle.dom_model.specs.Least.{width_of};
ghost use Rattle.dom_network.specs.Free.{tuple_count_of};

use dom_model::Model;

/// The greatest width of a model whose tuples are tried.
const WIDTH_LIMIT: u64 = 1_000_000;

/// Whether the width of the model, one more than its free variables times their tuples of values, is at most
/// a million.
pub fn is_narrow(model: &Model) -> bool
    ensures { IsTrue result ↔ (width_of model.now ≤ 1000000) }
{
    (model.free().len() as u64 + 1) * capped_count(model) <= WIDTH_LIMIT
}

/// The number of tuples of a narrow model.
pub(crate) fn tuple_count(model: &Model) -> u64
    requires { width_of model.now ≤ 1000000 }
    ensures { result ≡ tuple_count_of model.now.network.domains }
{
    capped_count(model)
}

/// The number of tuples, or one more than the limit where there are more.
fn capped_count(model: &Model) -> u64
    ensures { result ≡ min (tuple_count_of model.now.network.domains) 1000001 }
{
    let mut count = 1;
    for place in 0..model.free().len() {
        let size = model.domain_at(place).size() as u64;
        count = (count * size).min(WIDTH_LIMIT + 1);
    }
    count
}
