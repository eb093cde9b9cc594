//! The tuples of values by their numbers.
ghost use Rattle.std.specs.Prelude.{◌≡◌, ◌<◌, length};
ghost use Rattle.dom_network.specs.Free.{tuple_count_of};
ghost use Rattle.dom_search.specs.Tuples.{tuple_at};

use dom_model::Model;

/// Writes the tuple of that number, of so many in all, over another one. The tuples with rising numbers are in
/// lexicographic order.
pub(crate) fn set_tuple(model: &Model, count: u64, number: u64, values: &mut [i64])
    requires count { count ≡ tuple_count_of model.now.network.domains }
    requires number { number < count }
    requires whole { length values.old ≡ length model.now.network.domains }
    ensures { values.new ≡ tuple_at model.now.network.domains number }
{
    let mut block = count;
    let mut rest = number;
    for place in 0..model.free().len() {
        let domain = model.domain_at(place);
        block /= domain.size() as u64;
        values[place] = domain.value_at((rest / block) as usize);
        rest %= block;
    }
}
