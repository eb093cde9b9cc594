//! Arguments of short texts.
use crate::lookup::found;
use crate::{has_float_or_set, is_float_or_set, names_float_or_set};
use fzn_lex::lex;
use fzn_symbols::scope_of;
use fzn_syntax::parse;
use std::test::Fail;

const TEXT: &str = "float: f = 1.5;
var set of 1..3: s;
array [1..1] of float: fs = [f];
int: n = 1;
set of int: c = {1};
var int: x;
constraint p(1.5,1..2.5,{1,0.5},f,s,[x,s],[fs],1,1..2,{1},n,c,[x,c,true]);
solve satisfy;
";

#[test]
fn floats_and_set_variables_are_found(rt: HostRuntime) -> Result<(), Fail> {
    let tokens = lex(rt.alloc(), TEXT.as_bytes())?;
    let items = parse(rt.alloc(), TEXT.as_bytes(), tokens.as_slice())?;
    let scope = scope_of(rt.alloc(), &items)?;
    for constraint in items.constraints.as_slice() {
        for (place, argument) in constraint.arguments.as_slice().iter().enumerate() {
            assert!(rt;
                has_float_or_set(&scope, argument) == (place < 7),
                "{place}"
            );
        }
    }
    assert!(rt; names_float_or_set(&scope, b"fs"), "an array of floats");
    assert!(rt; !names_float_or_set(&scope, b"c"), "a constant set");
    let declaration = found(&scope, b"s").expect(&rt, "a declaration");
    assert!(rt; is_float_or_set(declaration), "a set variable");
    assert!(rt; found(&scope, b"z").is_none(), "no declaration");
    Ok(())
}
