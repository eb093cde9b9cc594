//! Models at the limits of what is read, solved and shown, and just above.
use super::{ran, refuses};
use crate::{Answer, ModelFault};
use dom_core::Values;
use dom_limits::Counted;
use fzn_lower::ModelError;
use std::alloc::{AllocError, Global};
use std::test::Fail;

// So many lines, each with its number from 0 on between two texts.
fn numbered(alloc: Global, count: u32, before: &str, after: &str) -> Result<String, AllocError> {
    let mut text = String::new(alloc);
    for i in 0..count {
        let line = format!(in alloc; "{before}{i}{after}\n")?;
        text.push_str(line.as_str())?;
    }
    Ok(text)
}

// A model with so many variables of one value each.
fn fixed_variables(alloc: Global, count: u32) -> Result<String, AllocError> {
    let mut text = numbered(alloc, count, "var 0..0: x", " :: output_var;")?;
    text.push_str("solve satisfy;\n")?;
    Ok(text)
}

#[test]
fn the_most_variables_are_solved(rt: HostRuntime) -> Result<(), Fail> {
    let alloc = rt.alloc();
    let most = fixed_variables(alloc, 4_096)?;
    let mut printed = numbered(alloc, 4_096, "x", " = 0;")?;
    printed.push_str("----------\n==========\n")?;
    let (_, out, err) = ran(&rt, "solve", most.as_bytes())?;
    assert!(rt; out.as_slice() == printed.as_bytes());
    assert_eq!(rt; err.as_slice(), b"".as_slice());
    let more = fixed_variables(alloc, 4_097)?;
    let fault = ModelFault::Lower(ModelError::TooMany {
        what: Counted::Free,
        count: 4_097,
    });
    assert!(rt; refuses(&rt, "solve", more.as_bytes(), fault)?);
    Ok(())
}

const WIDEST: &str =
    "var 0..49: x;\nvar 0..49: y;\nvar 0..99: z :: output_var;\nconstraint int_lin_le([-1,-1,-1],[x,y,z],-197);\nsolve minimize z;\n";

const TOO_WIDE: &str =
    "var 0..49: x;\nvar 0..49: y;\nvar 0..100: z :: output_var;\nsolve minimize z;\n";

#[test]
fn the_widest_model_is_solved(rt: HostRuntime) -> Result<(), Fail> {
    let (answer, out, _) = ran(&rt, "solve", WIDEST.as_bytes())?;
    let values = Values::from_slice(rt.alloc(), &[49, 49, 99])?;
    let best = Answer::Best {
        values,
        nodes: 250_000,
        nogoods: 0,
    };
    assert_eq!(rt; answer, best);
    assert_eq!(rt;
        out.as_slice(),
        b"z = 99;\n----------\n==========\n".as_slice()
    );
    assert!(rt; refuses(&rt, "solve", TOO_WIDE.as_bytes(), ModelFault::NotBuilt)?);
    Ok(())
}

// A model with so many constraints.
fn constrained(alloc: Global, count: u32) -> Result<String, AllocError> {
    let mut text = String::from_str(alloc, "var 0..1: x;\n")?;
    for _ in 0..count {
        text.push_str("constraint int_lin_le([1],[x],1);\n")?;
    }
    text.push_str("solve satisfy;\n")?;
    Ok(text)
}

#[test]
fn the_most_constraints_are_shown(rt: HostRuntime) -> Result<(), Fail> {
    let alloc = rt.alloc();
    let most = constrained(alloc, 100_000)?;
    let (answer, out, _) = ran(&rt, "show", most.as_bytes())?;
    assert_eq!(rt; answer, Answer::Shown);
    assert!(rt; out.as_slice() == most.as_bytes());
    let more = constrained(alloc, 100_001)?;
    let fault = ModelFault::Lower(ModelError::TooMany {
        what: Counted::Constraints,
        count: 100_001,
    });
    assert!(rt; refuses(&rt, "show", more.as_bytes(), fault)?);
    Ok(())
}
