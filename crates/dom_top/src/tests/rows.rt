//! Models with definitions and all the kinds that are built, with their answers.
use super::ran;
use crate::Status;
use std::test::Fail;

// A text, what is printed and told, and the exit code.
type Row = (&'static str, &'static str, &'static str, u8);

const KNAPSACK: &str = "var 0..1: x1 :: output_var;
var 0..1: x2 :: output_var;
var 0..1: x3 :: output_var;
var 0..14: z :: output_var :: is_defined_var;
constraint int_lin_le([3,4,3],[x1,x2,x3],6);
constraint int_lin_eq([5,4,5,-1],[x1,x2,x3,z],0) :: defines_var(z);
solve maximize z;
";

const TWO_ITEMS: &str = "var 0..1: x1 :: output_var;
var 0..1: x2 :: output_var;
var 0..2: z :: is_defined_var;
constraint int_lin_le([1,1],[x1,x2],1);
constraint int_lin_eq([1,1,-1],[x1,x2,z],0) :: defines_var(z);
solve maximize z;
";

const NO_GOAL: &str = "var 0..1: x1 :: output_var;
var 0..1: x2 :: output_var;
constraint int_lin_le([1,1],[x1,x2],1);
solve satisfy;
";

const COVER: &str = "var bool: a :: output_var;
var bool: b :: output_var;
var 0..1: i :: is_defined_var;
var 0..1: j :: is_defined_var;
var 0..6: z :: output_var :: is_defined_var;
constraint array_bool_or([a,b],true);
constraint array_bool_or([b],true);
constraint bool2int(a,i) :: defines_var(i);
constraint bool2int(b,j) :: defines_var(j);
constraint int_lin_eq([3,3,-1],[i,j,z],0) :: defines_var(z);
solve minimize z;
";

const DOUBLED: &str = "var 0..3: x :: output_var;
var 0..3: y :: output_var;
constraint int_lin_eq([2,-1],[x,y],0) :: defines_var(x);
solve satisfy;
";

const DOUBLED_OPEN: &str = "var int: x :: output_var;
var 0..3: y :: output_var;
constraint int_lin_eq([2,-1],[x,y],0) :: defines_var(x);
solve satisfy;
";

const CYCLIC: &str = "var 0..3: x;
var 0..3: y;
constraint int_lin_eq([1,-1],[x,y],0) :: defines_var(x);
constraint int_lin_eq([1,-1],[x,y],1) :: defines_var(y);
solve satisfy;
";

const WIDE_SUM: &str = "var {1125899906842624}: x :: output_var;
constraint int_lin_le([-1125899906842624],[x],0);
solve satisfy;
";

const WIDER_SUM: &str = "var {1125899906842624}: x :: output_var;
constraint int_lin_le([-1125899906842624,1],[x,1],0);
solve satisfy;
";

const MANY_VALUES: &str = "var 0..4095: x :: output_var;
solve minimize x;
";

const MORE_VALUES: &str = "var 0..4096: x :: output_var;
solve minimize x;
";

const TWO_CAPACITIES: &str = "% two capacities
predicate fzn_at_most_int(int: n, array [int] of var int: x, int: v);
array [1..5] of int: X_INTRODUCED_10_ = [4,3,5,2,6];
array [1..5] of int: X_INTRODUCED_11_ = [3,4,2,5,3];
array [1..6] of int: X_INTRODUCED_12_ = [7,6,8,4,9,-1];
var 0..1: X_INTRODUCED_0_;
var 0..1: X_INTRODUCED_1_;
var 0..1: X_INTRODUCED_2_;
var 0..1: X_INTRODUCED_3_;
var 0..1: X_INTRODUCED_4_;
var 0..34: profit:: output_var:: is_defined_var;
var bool: X_INTRODUCED_13_ ::var_is_introduced :: is_defined_var;
var bool: X_INTRODUCED_14_ ::var_is_introduced :: is_defined_var;
array [1..5] of var int: take:: output_array([1..5]) = [X_INTRODUCED_0_,X_INTRODUCED_1_,X_INTRODUCED_2_,X_INTRODUCED_3_,X_INTRODUCED_4_];
constraint int_lin_le(X_INTRODUCED_10_,take,10);
constraint int_lin_le(X_INTRODUCED_11_,take,9);
constraint int_lin_eq(X_INTRODUCED_12_,[X_INTRODUCED_0_,X_INTRODUCED_1_,X_INTRODUCED_2_,X_INTRODUCED_3_,X_INTRODUCED_4_,profit],0):: defines_var(profit);
constraint int_le_reif(1,X_INTRODUCED_0_,X_INTRODUCED_13_):: defines_var(X_INTRODUCED_13_);
constraint int_le_reif(1,X_INTRODUCED_4_,X_INTRODUCED_14_):: defines_var(X_INTRODUCED_14_);
constraint bool_clause([],[X_INTRODUCED_13_,X_INTRODUCED_14_]);
solve :: int_search(take,input_order,indomain_max,complete) maximize profit;
";

const CONSTANT_ARRAY: &str = "var bool: b :: output_var;
array [1..4] of var int: g :: output_array([1..2,1..2]) = [1,2,3,4];
solve satisfy;
";

const ROWS: [Row; 13] = [
    (
        KNAPSACK,
        "x1 = 1;\nx2 = 0;\nx3 = 1;\nz = 10;\n----------\n==========\n",
        "",
        0,
    ),
    (
        TWO_ITEMS,
        "x1 = 0;\nx2 = 1;\n----------\n==========\n",
        "",
        0,
    ),
    (NO_GOAL, "x1 = 0;\nx2 = 0;\n----------\n==========\n", "", 0),
    (
        COVER,
        "a = false;\nb = true;\nz = 3;\n----------\n==========\n",
        "",
        0,
    ),
    (DOUBLED, "x = 0;\ny = 0;\n----------\n==========\n", "", 0),
    (
        DOUBLED_OPEN,
        "",
        "dombreak: model refused: unbounded variable 1\n",
        2,
    ),
    (
        CYCLIC,
        "",
        "dombreak: model refused: cyclic definition of variable 1\n",
        2,
    ),
    (
        WIDE_SUM,
        "x = 1125899906842624;\n----------\n==========\n",
        "",
        0,
    ),
    (
        WIDER_SUM,
        "",
        "dombreak: model refused: constraint 1 too wide\n",
        2,
    ),
    (MANY_VALUES, "x = 0;\n----------\n==========\n", "", 0),
    (
        MORE_VALUES,
        "",
        "dombreak: model refused: domain of variable 1 has 4097 values\n",
        2,
    ),
    (
        TWO_CAPACITIES,
        "profit = 15;\ntake = array1d(1..5, [0, 1, 0, 0, 1]);\n----------\n==========\n",
        "",
        0,
    ),
    (
        CONSTANT_ARRAY,
        "b = false;\ng = array2d(1..2, 1..2, [1, 2, 3, 4]);\n----------\n==========\n",
        "",
        0,
    ),
];

#[test]
fn models_have_their_answers(rt: HostRuntime) -> Result<(), Fail> {
    for (text, printed, told, code) in ROWS {
        let (answer, out, err) = ran(&rt, "solve", text.as_bytes())?;
        assert_eq!(rt; out.as_slice(), printed.as_bytes(), "{text}");
        assert_eq!(rt; err.as_slice(), told.as_bytes(), "{text}");
        assert_eq!(rt; Status { answer }.code(), code, "{text}");
    }
    Ok(())
}
