use super::*;
use fzn_lex::{What, lex};
use std::test::*;

// Each production stands here, and each choice.
const WHOLE: &str = "predicate p(var int: x, array [int] of {1,2}: y);
predicate q();
bool: b = true;
int: n = -3;
float: f = 1.5;
set of int: s = {1,4};
set of 1..3: t = 1..3;
set of float: u = 0.5..1.5;
set of {}: v = {};
var bool: c;
var int: d = n;
var float: e;
var 1..9: g :: output_var :: is_defined_var = 3;
var {1,3}: h :: a(1, 2..3, {4}, {}, \"text\", k, m(), m(k, [l, [] ]), [true, false], 1.5);
var set of int: i;
var set of 1..3: j;
array [1..2] of int: k = [1,2];
array [1..0] of set of int: l = [];
array [1..2] of var int: m :: output_array([1..2]) = [g,h];
constraint int_lin_le(k, [g,h], 3) :: defines_var(g);
constraint r();
constraint set_in(g, {1,3});
solve :: int_search([g], first_fail, indomain_min, complete) minimize g;
";

fn answer(rt: &HostRuntime, text: &str) -> Result<Items, SyntaxError> {
    match lex(rt.alloc(), text.as_bytes()) {
        Ok(tokens) => parse(rt.alloc(), text.as_bytes(), &tokens),
        Err(_) => Err(SyntaxError::Memory),
    }
}

#[test]
fn a_text_of_all_productions_is_read(rt: HostRuntime) -> Result<(), Fail> {
    let items = answer(&rt, WHOLE).ok().ok_or("the text is items")?;
    assert_eq!(rt; items.predicates.len(), 2);
    assert_eq!(rt; items.declarations.len(), 17);
    assert_eq!(rt; items.constraints.len(), 3);
    for constraint in items.constraints.as_slice() {
        assert!(rt; constraint.arguments.len() <= 3);
    }
    assert_eq!(rt; items.solve.annotations.len(), 1);
    assert!(rt;
        matches!(&items.solve.goal, SolveGoal::Minimize(n) if n.name.as_bytes() == b"g".as_slice())
    );
    tokens_have_one_answer();
    Ok(())
}

#[test]
fn what_is_cut_short_fails_at_the_end(rt: HostRuntime) -> Result<(), Fail> {
    let tokens = lex(rt.alloc(), WHOLE.as_bytes())
        .ok()
        .ok_or("the text has tokens")?;
    let end = WHOLE.len() as u64;
    for count in 0..tokens.len() {
        let answer = parse(rt.alloc(), WHOLE.as_bytes(), &tokens[..count]);
        assert!(rt;
            matches!(answer, Err(SyntaxError::Unexpected { at }) if at == end),
            "{count}"
        );
    }
    Ok(())
}

const REFUSED: [(&str, u64); 34] = [
    ("", 0),
    ("% nothing\n", 10),
    ("solve", 5),
    ("solve satisfy", 13),
    ("solve satisfy; solve satisfy;", 15),
    ("satisfy;", 0),
    ("solve minimize 3;", 15),
    ("solve minimize var;", 15),
    ("solve maximize x y;", 17),
    ("solve :: satisfy;", 9),
    ("solve satisfy; int: x = 1;", 15),
    ("var 1..: x; solve satisfy;", 7),
    ("var 1: x; solve satisfy;", 5),
    ("var {1,}: x; solve satisfy;", 7),
    ("var {,1}: x; solve satisfy;", 5),
    ("var set int: x; solve satisfy;", 8),
    ("var bool x; solve satisfy;", 9),
    ("var bool: true; solve satisfy;", 10),
    ("var bool: x = ; solve satisfy;", 14),
    ("var bool: x = [y; solve satisfy;", 16),
    ("var bool: x = [[]]; solve satisfy;", 15),
    ("int: x; solve satisfy;", 6),
    ("int: x :: a = 1; solve satisfy;", 7),
    ("array [1..2] of int: x; solve satisfy;", 22),
    ("array [1..2] of var int: x; solve satisfy;", 26),
    ("array [x..2] of int: x = []; solve satisfy;", 7),
    ("constraint c(; solve satisfy;", 13),
    ("constraint c(x,); solve satisfy;", 15),
    ("constraint c(\"t\"); solve satisfy;", 13),
    ("solve :: a(1..) satisfy;", 14),
    ("solve :: a([)]) satisfy;", 12),
    ("solve :: a(b c) satisfy;", 13),
    ("predicate p(([)]); solve satisfy;", 14),
    ("predicate p(;); solve satisfy;", 12),
];

#[test]
fn the_first_wrong_token_is_told(rt: HostRuntime) {
    for (text, place) in &REFUSED {
        let answer = answer(&rt, text);
        assert!(rt;
            matches!(answer, Err(SyntaxError::Unexpected { at }) if at == *place),
            "{text}"
        );
    }
}

#[test]
fn brackets_nest_deep(rt: HostRuntime) -> Result<(), Fail> {
    for (open, close) in [("[", "]"), ("f(", ")")] {
        let mut text = String::new(rt.alloc());
        text.push_str("predicate p((")?;
        for _ in 0..100_000 {
            text.push_str("{[(")?;
        }
        for _ in 0..100_000 {
            text.push_str(")]}")?;
        }
        text.push_str(")); solve :: a(")?;
        for _ in 0..100_000 {
            text.push_str(open)?;
        }
        for _ in 0..100_000 {
            text.push_str(close)?;
        }
        text.push_str(") satisfy;")?;
        assert!(rt; answer(&rt, text.as_str()).is_ok(), "{open}");
    }
    Ok(())
}

// Whether the variable is declared from 1.5 up to 2.
fn has_ends(variable: &VariableDeclaration) -> bool {
    match &variable.element {
        VariableType::Plain(Element::Range(b)) => {
            matches!(&b.lower, Number::Float(f) if f.as_bytes() == b"1.5".as_slice())
                && matches!(&b.upper, Number::Int(2))
        }
        _ => false,
    }
}

// Whether the annotation has five words, of which the fourth is quoted.
fn has_words(annotation: &Annotation) -> bool {
    match &annotation.arguments {
        Some(words) => {
            words.len() == 5
                && matches!(words.as_slice().get(3), Some(w) if w.what == What::Text && w.text.as_bytes() == b"\"e\"".as_slice())
        }
        None => false,
    }
}

#[test]
fn trees_keep_what_is_written(rt: HostRuntime) -> Result<(), Fail> {
    let text = "var 1.5..2: ab :: cd(1,\"e\"); solve satisfy;";
    let items = answer(&rt, text).ok().ok_or("the text is items")?;
    assert_eq!(rt; items.solve.at, 29);
    for declaration in items.declarations.as_slice() {
        assert!(rt;
            matches!(declaration, Declaration::Variable(v) if v.name.at == 12 && v.annotations.len() == 1)
        );
        if let Declaration::Variable(v) = declaration {
            assert!(rt; has_ends(v));
            for annotation in v.annotations.as_slice() {
                assert!(rt; has_words(annotation));
            }
        }
    }
    let declarations = items.declarations.into_vec();
    assert_eq!(rt; Sequence::from_vec(declarations).len(), 1);
    Ok(())
}

#[test]
fn errors_are_told_in_words(rt: HostRuntime) -> Result<(), Fail> {
    let told = format!(in rt.alloc();
        "{}; {}",
        SyntaxError::Unexpected { at: 7 },
        SyntaxError::Memory
    )?;
    assert_eq!(rt; told.as_str(), "unexpected token at byte 7; no memory");
    Ok(())
}

fn shared<T: Send + Sync>(_value: &T) {}

#[test]
fn items_are_shared_between_threads(rt: HostRuntime) -> Result<(), Fail> {
    let items = answer(&rt, "solve satisfy;")
        .ok()
        .ok_or("the text is items")?;
    shared(&items);
    Ok(())
}
