//! What declarations are.
use crate::{Base, Sort, base_of_parameter, base_of_variable, identifier_of, sort_of};
use fzn_lex::lex;
use fzn_syntax::{Declaration, parse};
use std::test::Fail;

fn shared<T: Send + Sync>(_: &T) {}

const DECLARED: &str = "bool: a = true;
set of 1..3: b = {1};
set of {1,2.5}: c = {};
float: d = 1.0;
var bool: e;
var 1..3: f;
var {1,2}: g;
var 1..2.5: h;
var set of 1..3: i;
array [1..1] of int: j = [1];
array [1..1] of var int: k = [f];
solve satisfy;
";

const SORTS: [(&str, Base, bool, bool); 11] = [
    ("a", Base::Bool, false, false),
    ("b", Base::Set, false, false),
    ("c", Base::FloatOrSet, false, false),
    ("d", Base::FloatOrSet, false, false),
    ("e", Base::Bool, true, false),
    ("f", Base::Int, true, false),
    ("g", Base::Int, true, false),
    ("h", Base::FloatOrSet, true, false),
    ("i", Base::FloatOrSet, true, false),
    ("j", Base::Int, false, true),
    ("k", Base::Int, true, true),
];

#[test]
fn each_declaration_has_its_name_and_its_sort(rt: HostRuntime) -> Result<(), Fail> {
    let tokens = lex(rt.alloc(), DECLARED.as_bytes()).expect(&rt, "tokens");
    let items = parse(rt.alloc(), DECLARED.as_bytes(), tokens.as_slice()).expect(&rt, "items");
    let declarations = items.declarations.as_slice();
    assert_eq!(rt; declarations.len(), SORTS.len());
    for (declaration, (name, base, is_variable, is_array)) in declarations.iter().zip(SORTS) {
        let sort = sort_of(declaration);
        shared(&sort);
        assert_eq!(rt; identifier_of(declaration).name.as_bytes(), name.as_bytes());
        assert_eq!(rt;
            sort,
            Sort {
                base,
                is_variable,
                is_array
            },
            "{name}"
        );
    }
    Ok(())
}

#[test]
fn types_have_their_bases(rt: HostRuntime) -> Result<(), Fail> {
    let tokens = lex(rt.alloc(), DECLARED.as_bytes()).expect(&rt, "tokens");
    let items = parse(rt.alloc(), DECLARED.as_bytes(), tokens.as_slice()).expect(&rt, "items");
    assert_eq!(rt; items.declarations.len(), SORTS.len());
    for declaration in items.declarations.as_slice() {
        match declaration {
            Declaration::Parameter(parameter) => {
                assert_eq!(rt;
                    base_of_parameter(&parameter.element),
                    sort_of(declaration).base
                );
            }
            Declaration::Variable(variable) => {
                assert_eq!(rt;
                    base_of_variable(&variable.element),
                    sort_of(declaration).base
                );
            }
            Declaration::ParameterArray(_) => {}
            Declaration::VariableArray(_) => {}
        }
    }
    Ok(())
}
