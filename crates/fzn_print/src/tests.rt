use crate::print;
use fzn_lex::lex;
use fzn_syntax::parse;
use std::alloc::Global;
use std::process::Abort;
use std::test::Fail;

// What is printed of the items of a text.
fn shown(alloc: Global, text: &[u8]) -> Result<Vec<u8>, Fail> {
    let tokens = lex(alloc, text)?;
    let items = parse(alloc, text, tokens.as_slice())?;
    Ok(print(alloc, &items)?)
}

fn shows<R: Abort>(rt: &R, alloc: Global, text: &[u8], want: &[u8]) -> Result<(), Fail> {
    let once = shown(alloc, text)?;
    assert_eq!(rt; once.as_slice(), want, "the canonical text");
    let twice = shown(alloc, once.as_slice())?;
    assert_eq!(rt; twice.as_slice(), want, "the canonical text of itself");
    Ok(())
}

#[test]
fn declarations_are_printed(rt: HostRuntime) -> Result<(), Fail> {
    let alloc = rt.alloc();
    shows(
        &rt,
        alloc,
        b"var 0 .. 3:x;solve satisfy;",
        b"var 0..3: x;\nsolve satisfy;\n",
    )?;
    let arrays =
        b"array [1..3] of var int: xs :: output_array([1..3]) = [x1,x2,x3];\nsolve satisfy;\n";
    shows(&rt, alloc, arrays, arrays)?;
    let sets = b"set of int: S = {1,4};\nint: n = 0x1F;\nsolve satisfy;";
    shows(
        &rt,
        alloc,
        sets,
        b"set of int: S = {1,4};\nint: n = 31;\nsolve satisfy;\n",
    )?;
    let entries =
        b"array[1 .. 2]of set of 1..3:a=[{},1 .. 2];var bool:b::f(\"t\")=true;solve satisfy;";
    let canonical =
        b"array [1..2] of set of 1..3: a = [{},1..2];\nvar bool: b :: f(\"t\") = true;\nsolve satisfy;\n";
    shows(&rt, alloc, entries, canonical)?;
    let floats = b"float: f = -1.50e3;\nvar 0.5..1.5: y;\nvar set of {1,2}: t;\nsolve satisfy;\n";
    shows(&rt, alloc, floats, floats)
}

#[test]
fn other_items_are_printed(rt: HostRuntime) -> Result<(), Fail> {
    let alloc = rt.alloc();
    let goal = b"var 1..2: z;\nsolve :: ann maximize z;\n";
    shows(&rt, alloc, goal, goal)?;
    shows(
        &rt,
        alloc,
        b"var 1..2: z; solve minimize z;",
        b"var 1..2: z;\nsolve minimize z;\n",
    )?;
    let constraint = b"constraint p([1,-2],true,x)::a::b(c(d,[1 .. 2]),{3});% end\nsolve satisfy;";
    let canonical = b"constraint p([1,-2],true,x) :: a :: b(c(d,[1..2]),{3});\nsolve satisfy;\n";
    shows(&rt, alloc, constraint, canonical)?;
    let predicate =
        b"predicate p(var int:x,array [int] of var int : y);predicate q();solve satisfy;";
    let joined =
        b"predicate p(var int : x , array [ int ] of var int : y);\npredicate q();\nsolve satisfy;\n";
    shows(&rt, alloc, predicate, joined)
}
