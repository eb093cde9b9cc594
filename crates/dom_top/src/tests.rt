mod limits;
mod rows;

use super::*;
use dom_core::{Values, VarId};
use dom_edge::{MemFolder, MemSink, NeverFolder, NeverSink, Sink};
use dom_limits::Counted;
use fzn_lex::LexError;
use fzn_lower::ModelError;
use fzn_syntax::SyntaxError;
use std::alloc::{AllocError, Global};
use std::process::Abort;
use std::test::Fail;
use std::thread::Threads;

fn shared<T: Send + Sync>(_: &T) {}

fn words(alloc: Global, texts: &[&str]) -> Result<Vec<String>, AllocError> {
    let mut words = Vec::new(alloc);
    for text in texts {
        words.push(String::from_str(alloc, text)?)?;
    }
    Ok(words)
}

#[test]
fn a_command_and_a_model_are_read(rt: HostRuntime) -> Result<(), Fail> {
    for model in ["m.fzn", "solve", "show", "a b", "./-", "é"] {
        let given = words(rt.alloc(), &["solve", model])?;
        assert_eq!(rt;
            read_words(given.as_slice()),
            Ok(Command::Solve { model }),
            "{model}"
        );
        let given = words(rt.alloc(), &["show", model])?;
        assert_eq!(rt;
            read_words(given.as_slice()),
            Ok(Command::Show { model }),
            "{model}"
        );
    }
    Ok(())
}

#[test]
fn all_other_words_are_refused(rt: HostRuntime) -> Result<(), Fail> {
    let alloc = rt.alloc();
    for given in [
        words(alloc, &[])?,
        words(alloc, &["solve"])?,
        words(alloc, &["solve", ""])?,
        words(alloc, &["solve", "-"])?,
        words(alloc, &["solve", "--help"])?,
        words(alloc, &["Solve", "m.fzn"])?,
        words(alloc, &["solve ", "m.fzn"])?,
        words(alloc, &["", "m.fzn"])?,
        words(alloc, &["m.fzn", "solve"])?,
        words(alloc, &["solve", "m.fzn", ""])?,
        words(alloc, &["show"])?,
        words(alloc, &["show", ""])?,
        words(alloc, &["show", "-"])?,
        words(alloc, &["shows", "m.fzn"])?,
        words(alloc, &["show", "m.fzn", "m.fzn"])?,
    ] {
        assert_eq!(rt;
            read_words(given.as_slice()),
            Err(WordsError::Refused),
            "{given:?}"
        );
    }
    Ok(())
}

fn answers(alloc: Global) -> Result<Vec<Answer>, AllocError> {
    let values = Values::from_slice(alloc, &[0, -3])?;
    let answers = [
        Answer::Best {
            values,
            nodes: 4,
            nogoods: 0,
        },
        Answer::Infeasible {
            nodes: 2,
            nogoods: 0,
        },
        Answer::Shown,
        Answer::ModelRefused {
            fault: ModelFault::NotBuilt,
        },
        Answer::WordsRefused,
        Answer::ReadFault,
        Answer::WriteFault,
        Answer::NoMemory,
    ];
    Ok(Vec::from_array(alloc, answers)?)
}

const TOLD: [(u8, &str); 8] = [
    (0, ""),
    (0, ""),
    (0, ""),
    (2, "dombreak: model refused: not built\n"),
    (3, "dombreak: words refused\n"),
    (4, "dombreak: read fault\n"),
    (5, "dombreak: write fault\n"),
    (6, "dombreak: no memory\n"),
];

#[test]
fn each_answer_has_its_code_and_its_line(rt: HostRuntime) -> Result<(), Fail> {
    let alloc = rt.alloc();
    let answers = answers(alloc)?;
    shared(&answers);
    assert_eq!(rt; answers.len(), TOLD.len());
    for (answer, (code, line)) in answers.into_iter().zip(TOLD) {
        let status = Status { answer };
        assert_eq!(rt; status.code(), code, "{status:?}");
        assert_eq!(rt;
            line_of(alloc, &status.answer)?.as_str(),
            line,
            "{status:?}"
        );
        let mut err = MemSink::new(alloc);
        tell(alloc, &mut err, &status.answer);
        assert_eq!(rt; err.as_slice(), line.as_bytes(), "{status:?}");
    }
    Ok(())
}

const FAULTS: [(ModelFault, &str); 23] = [
    (ModelFault::Lex(LexError::TooLong), "text too long"),
    (
        ModelFault::Lex(LexError::BadByte { at: 0 }),
        "bad byte at byte 0",
    ),
    (
        ModelFault::Lex(LexError::BadNumber { at: 16_777_215 }),
        "bad number at byte 16777215",
    ),
    (
        ModelFault::Lex(LexError::OpenString { at: 10 }),
        "open string at byte 10",
    ),
    (
        ModelFault::Syntax(SyntaxError::Unexpected { at: 11 }),
        "unexpected token at byte 11",
    ),
    (
        ModelFault::Lower(ModelError::NameTwice { at: 23 }),
        "name declared twice at byte 23",
    ),
    (
        ModelFault::Lower(ModelError::UnknownName { at: 15 }),
        "unknown name at byte 15",
    ),
    (
        ModelFault::Lower(ModelError::UnknownConstraint { at: 24 }),
        "unknown constraint at byte 24",
    ),
    (
        ModelFault::Lower(ModelError::WrongArguments { at: 9 }),
        "wrong arguments at byte 9",
    ),
    (
        ModelFault::Lower(ModelError::FloatOrSet { at: 100 }),
        "float or set variable at byte 100",
    ),
    (
        ModelFault::Lower(ModelError::TooMany {
            what: Counted::Variables,
            count: 100_001,
        }),
        "too many variables: 100001",
    ),
    (
        ModelFault::Lower(ModelError::TooMany {
            what: Counted::Constraints,
            count: 100_002,
        }),
        "too many constraints: 100002",
    ),
    (
        ModelFault::Lower(ModelError::TooMany {
            what: Counted::ArrayEntries,
            count: 100_003,
        }),
        "too many array entries: 100003",
    ),
    (
        ModelFault::Lower(ModelError::TooMany {
            what: Counted::ArgumentEntries,
            count: 2_000_001,
        }),
        "too many argument entries: 2000001",
    ),
    (
        ModelFault::Lower(ModelError::TooMany {
            what: Counted::Free,
            count: u64::MAX,
        }),
        "too many free variables: 18446744073709551615",
    ),
    (
        ModelFault::Lower(ModelError::CyclicDefinition { var: VarId(0) }),
        "cyclic definition of variable 1",
    ),
    (
        ModelFault::Lower(ModelError::EmptyDomain { var: VarId(99_999) }),
        "empty domain of variable 100000",
    ),
    (
        ModelFault::Lower(ModelError::Unbounded {
            var: VarId(u32::MAX),
        }),
        "unbounded variable 4294967296",
    ),
    (
        ModelFault::Lower(ModelError::DomainTooLarge {
            var: VarId(9),
            count: 4_097,
        }),
        "domain of variable 10 has 4097 values",
    ),
    (
        ModelFault::Lower(ModelError::TooWide { constraint: 1 }),
        "constraint 1 too wide",
    ),
    (ModelFault::Lower(ModelError::NotBuilt), "not built"),
    (ModelFault::Lower(ModelError::Memory), "no memory"),
    (ModelFault::NotBuilt, "not built"),
];

#[test]
fn each_fault_has_its_text(rt: HostRuntime) -> Result<(), Fail> {
    let alloc = rt.alloc();
    for (fault, text) in FAULTS {
        let line = line_of(alloc, &Answer::ModelRefused { fault })?;
        let wanted = format!(in alloc; "dombreak: model refused: {text}\n")?;
        assert_eq!(rt; line.as_str(), wanted.as_str());
    }
    Ok(())
}

#[test]
fn a_line_that_cannot_be_written_is_left(rt: HostRuntime) -> Result<(), Fail> {
    let alloc = rt.alloc();
    let mut err = MemSink::new(alloc);
    err.fail_write(1)?;
    tell(alloc, &mut err, &Answer::WordsRefused);
    assert_eq!(rt; err.as_slice(), b"".as_slice());
    tell(alloc, &mut err, &Answer::WordsRefused);
    assert_eq!(rt; err.as_slice(), b"dombreak: words refused\n".as_slice());
    Ok(())
}

#[test]
fn refused_words_are_told_in_words(rt: HostRuntime) -> Result<(), Fail> {
    assert_eq!(rt;
        WordsError::Refused.to_string(rt.alloc())?.as_str(),
        "words refused"
    );
    Ok(())
}

// Runs a command over a folder in memory with one file, and tells the answer and what was written.
fn ran<R: Threads + Sync + AllocGlobal>(
    rt: &R,
    command: &str,
    text: &[u8],
) -> Result<(Answer, Vec<u8>, Vec<u8>), Fail> {
    let alloc = rt.alloc();
    let mut folder = MemFolder::new(alloc);
    folder.insert("m", text)?;
    let mut out = MemSink::new(alloc);
    let mut err = MemSink::new(alloc);
    let given = words(alloc, &[command, "m"])?;
    let status = run(rt, given.as_slice(), &mut folder, &mut out, &mut err);
    let printed = out.as_slice().to_vec(alloc)?;
    let told = err.as_slice().to_vec(alloc)?;
    Ok((status.answer, printed, told))
}

const ONE_VARIABLE: &str = "var 0..3: x :: output_var;\nsolve minimize x;\n";

const INFEASIBLE_BOUND: &str =
    "var 0..1: x :: output_var;\nconstraint int_lin_le([1],[x],-1);\nsolve satisfy;\n";

#[test]
fn the_least_assignment_is_printed(rt: HostRuntime) -> Result<(), Fail> {
    for (text, printed) in [
        (ONE_VARIABLE, "x = 0;\n----------\n==========\n"),
        ("solve satisfy;\n", "----------\n==========\n"),
        ("% nothing\n\tsolve satisfy ;", "----------\n==========\n"),
        (INFEASIBLE_BOUND, "=====UNSATISFIABLE=====\n"),
        (
            "var 0..2: x :: output_var;\nvar 0..2: y :: output_var;\nconstraint int_lin_le([-1,-1],[x,y],-2);\nsolve satisfy;\n",
            "x = 0;\ny = 2;\n----------\n==========\n",
        ),
        (
            "var 0..2: x :: output_var;\nvar -2..2: y :: output_var;\nconstraint int_lin_le([-1,-1],[x,y],-2);\nsolve minimize y;\n",
            "x = 2;\ny = 0;\n----------\n==========\n",
        ),
    ] {
        let (answer, out, err) = ran(&rt, "solve", text.as_bytes())?;
        assert_eq!(rt; out.as_slice(), printed.as_bytes(), "{text}: {answer:?}");
        assert_eq!(rt; err.as_slice(), b"".as_slice(), "{text}");
    }
    Ok(())
}

#[test]
fn the_answer_keeps_the_values(rt: HostRuntime) -> Result<(), Fail> {
    let (answer, _, _) = ran(&rt, "solve", ONE_VARIABLE.as_bytes())?;
    let values = Values::from_slice(rt.alloc(), &[0])?;
    assert_eq!(rt;
        answer,
        Answer::Best {
            values,
            nodes: 4,
            nogoods: 0
        }
    );
    let (answer, _, _) = ran(&rt, "solve", INFEASIBLE_BOUND.as_bytes())?;
    assert_eq!(rt;
        answer,
        Answer::Infeasible {
            nodes: 2,
            nogoods: 0
        }
    );
    Ok(())
}

const CANONICAL: &str = "var 0..1: x :: output_var;\nsolve minimize x;\n";

const WIDE: &str = "var 0..999: x;\nvar 0..999: y;\nsolve satisfy;\n";

#[test]
fn the_canonical_text_is_shown(rt: HostRuntime) -> Result<(), Fail> {
    for (text, printed) in [
        ("var 0..1:x::output_var;solve   minimize x;", CANONICAL),
        (CANONICAL, CANONICAL),
        ("solve satisfy;% all\n", "solve satisfy;\n"),
        (WIDE, WIDE),
    ] {
        let (answer, out, err) = ran(&rt, "show", text.as_bytes())?;
        assert_eq!(rt; answer, Answer::Shown, "{text}");
        assert_eq!(rt; out.as_slice(), printed.as_bytes(), "{text}");
        assert_eq!(rt; err.as_slice(), b"".as_slice(), "{text}");
    }
    Ok(())
}

// Whether this command refuses the text for this fault, and writes nothing.
fn refuses<R: Threads + Sync + AllocGlobal>(
    rt: &R,
    command: &str,
    text: &[u8],
    fault: ModelFault,
) -> Result<bool, Fail> {
    let (answer, out, err) = ran(rt, command, text)?;
    let refused = Answer::ModelRefused { fault };
    let line = line_of(rt.alloc(), &refused)?;
    Ok(answer == refused && out.is_empty() && err.as_slice() == line.as_bytes())
}

const REFUSED: [(&str, ModelFault); 13] = [
    ("", ModelFault::Syntax(SyntaxError::Unexpected { at: 0 })),
    (
        "var 0..3: x",
        ModelFault::Syntax(SyntaxError::Unexpected { at: 11 }),
    ),
    (
        "var 0..3: x;\n\"abc",
        ModelFault::Lex(LexError::OpenString { at: 13 }),
    ),
    (
        "var 0..9223372036854775807: x;",
        ModelFault::Lex(LexError::BadNumber { at: 7 }),
    ),
    (
        "solve satisfy satisfy; #",
        ModelFault::Lex(LexError::BadByte { at: 23 }),
    ),
    (
        "var 0..1: x;\nvar 0..1: x;\nsolve satisfy;",
        ModelFault::Lower(ModelError::NameTwice { at: 23 }),
    ),
    (
        "solve minimize y;",
        ModelFault::Lower(ModelError::UnknownName { at: 15 }),
    ),
    (
        "var 0..3: x;\nconstraint int_pow(x,2,x);\nsolve satisfy;\n",
        ModelFault::Lower(ModelError::UnknownConstraint { at: 24 }),
    ),
    (
        "var 0..3: x;\nconstraint int_lin_le([1],[x],x);\nsolve satisfy;\n",
        ModelFault::Lower(ModelError::WrongArguments { at: 24 }),
    ),
    (
        "var float: y;\nsolve satisfy;\n",
        ModelFault::Lower(ModelError::FloatOrSet { at: 11 }),
    ),
    (
        "var 0..1: x;\nconstraint int_times(x,x,x);\nsolve satisfy;\n",
        ModelFault::Lower(ModelError::NotBuilt),
    ),
    (
        "var 0..1: x;\nvar 0..4096: y;\nsolve satisfy;\n",
        ModelFault::Lower(ModelError::DomainTooLarge {
            var: VarId(1),
            count: 4_097,
        }),
    ),
    (
        "var 0..1: x;\nvar 3..2: y;\nsolve satisfy;\n",
        ModelFault::Lower(ModelError::EmptyDomain { var: VarId(1) }),
    ),
];

#[test]
fn the_first_fault_is_told_and_nothing_written(rt: HostRuntime) -> Result<(), Fail> {
    every_text_has_one_outcome();
    for (text, fault) in REFUSED {
        for command in ["solve", "show"] {
            assert!(rt;
                refuses(&rt, command, text.as_bytes(), fault)?,
                "{command}: {text}"
            );
        }
    }
    assert!(rt; refuses(&rt, "solve", WIDE.as_bytes(), ModelFault::NotBuilt)?);
    Ok(())
}

// A comment of so many bytes.
fn comment(alloc: Global, count: usize) -> Result<Vec<u8>, AllocError> {
    vec![in alloc; b'%'; count]
}

#[test]
fn a_text_of_one_byte_too_many_is_too_long(rt: HostRuntime) -> Result<(), Fail> {
    let longest = comment(rt.alloc(), 16_777_216)?;
    let end = ModelFault::Syntax(SyntaxError::Unexpected { at: 16_777_216 });
    assert!(rt; refuses(&rt, "show", longest.as_slice(), end)?);
    let longer = comment(rt.alloc(), 16_777_217)?;
    let fault = ModelFault::Lex(LexError::TooLong);
    assert!(rt; refuses(&rt, "show", longer.as_slice(), fault)?);
    Ok(())
}

// Has a command meet a file that is missing, a read that fails and a write that fails.
fn meets_faults<R: Threads + Sync + AllocGlobal + Abort>(
    rt: &R,
    command: &str,
) -> Result<(), Fail> {
    let alloc = rt.alloc();
    let given = words(alloc, &[command, "m"])?;
    let mut folder = MemFolder::new(alloc);
    let mut out = MemSink::new(alloc);
    let mut err = MemSink::new(alloc);
    let missing = run(rt, given.as_slice(), &mut folder, &mut out, &mut err);
    assert_eq!(rt; missing.answer, Answer::ReadFault);
    folder.insert("m", ONE_VARIABLE.as_bytes())?;
    folder.fail_read(3)?;
    let cut = run(rt, given.as_slice(), &mut folder, &mut out, &mut err);
    assert_eq!(rt; cut.answer, Answer::ReadFault);
    assert_eq!(rt; out.as_slice(), b"".as_slice());
    out.fail_write(1)?;
    let full = run(rt, given.as_slice(), &mut folder, &mut out, &mut err);
    assert_eq!(rt; full.answer, Answer::WriteFault);
    assert_eq!(rt; out.as_slice(), b"".as_slice());
    assert_eq!(rt;
        err.as_slice(),
        b"dombreak: read fault\ndombreak: read fault\ndombreak: write fault\n".as_slice()
    );
    Ok(())
}

#[test]
fn faults_of_the_read_and_the_write_are_answered(rt: HostRuntime) -> Result<(), Fail> {
    meets_faults(&rt, "solve")?;
    meets_faults(&rt, "show")
}

#[test]
fn refused_words_read_nothing(rt: HostRuntime) -> Result<(), Fail> {
    let alloc = rt.alloc();
    let mut folder = NeverFolder::new(alloc);
    let mut out = NeverSink::new(alloc);
    let mut err = MemSink::new(alloc);
    err.fail_write(1)?;
    let given = words(alloc, &["solve"])?;
    let status = run(&rt, given.as_slice(), &mut folder, &mut out, &mut err);
    assert_eq!(rt; status.answer, Answer::WordsRefused);
    assert_eq!(rt; status.code(), 3);
    assert_eq!(rt; err.as_slice(), b"".as_slice());
    Ok(())
}
