//! Scripts with their files, and what is printed for each pair.

/// For every number there is a greater one.
pub(crate) const FOR_ALL_EXISTS: &str =
    "(set-logic LRA)\n(assert (forall ((x Real)) (exists ((y Real)) (< x y))))\n(check-sat)\n";

/// A number is even and odd.
const EVEN_AND_ODD: &str =
    "(set-logic LIA)\n(declare-const x Int)\n(assert (and ((_ divisible 2) x) ((_ divisible 2) (+ x 1))))\n(check-sat)\n";

/// Wins the first script.
pub(crate) const WON: &str =
    "simsat-strategy 1\ngoals 1\ngoal 0 sat\nturns to\nt\no 1\nm 1 1 1 0\nproof 4\npath 0\ndef 1 0\nsum 1 0 1 1 1\nfalse 2\nend\n";

/// Scripts, their files, and what is printed.
pub(crate) const RUNS: &[(&str, &str, &str)] = &[
    (FOR_ALL_EXISTS, WON, "accepted sat\n"),
    (
        "(set-logic LIA)\n(assert (forall ((x Int)) (exists ((y Int)) (or (= (* 2 y) x) (= (* 2 y) (+ x 1))))))\n(check-sat)\n",
        "simsat-strategy 1\ngoals 1\ngoal 0 sat\nturns to\nt\no 1\nm 2 1 1 0\nproof 13\npath 0\npart 0 0\npart 0 1\ndef 1 0\ndef 1 1\ncases 1 2\nsum 1 3 1 5 1\nfalse 6\ncases 2 2\nsum 1 5 1 6 1\nfalse 7\nsum 1 4 1 6 1\nfalse 7\nend\n",
        "accepted sat\n",
    ),
    (
        "(set-logic LRA)\n(assert (exists ((x Real)) (forall ((y Real)) (< x y))))\n(check-sat)\n",
        "simsat-strategy 1\ngoals 1\ngoal 0 unsat\nturns to\nt\no 1\nm 1 -1 1 0\nproof 4\npath 0\ndef 1 1\nsum 1 0 1 1 1\nfalse 2\nend\n",
        "accepted unsat\n",
    ),
    (
        "(set-logic LIA)\n(assert (forall ((x Int)) (exists ((y Int)) (or (= (* 2 y) x) (= (* 2 y) (+ x 1))))))\n(check-sat)\n",
        "simsat-strategy 1\ngoals 1\ngoal 0 sat\nturns to\nt\no 1\nm 2 1 1 0\nproof 13\npath 0\ndef 1 0\ndef 1 1\npart 0 0\npart 0 1\ncases 4 2\ncases 3 2\nsum 1 1 1 6 1\nfalse 7\nsum 1 5 1 6 1\nfalse 7\nsum 1 5 1 2 1\nfalse 6\nend\n",
        "accepted sat\n",
    ),
    (
        "(set-logic LIA)\n(assert (exists ((x Int)) (= (* 2 x) 1)))\n(check-sat)\n",
        "simsat-strategy 1\ngoals 1\ngoal 0 unsat\nturns t\nt\nproof 5\npath 0\npart 0 0\npart 0 1\nsum 1 1 1 2 1\nfalse 3\nend\n",
        "accepted unsat\n",
    ),
    (
        "(set-logic LRA)\n(assert (exists ((x Real)) (= (* 2 x) 1)))\n(check-sat)\n",
        "simsat-strategy 1\ngoals 1\ngoal 0 sat\nturns o\no 1\nm 2 1\nproof 8\npath 0\ndef 0 0\ndef 0 1\ncases 0 2\nsum 1 3 1 1 1\nfalse 4\nsum 1 3 1 2 1\nfalse 4\nend\n",
        "accepted sat\n",
    ),
    (
        "(set-logic LIA)\n(assert (exists ((x Int)) (exists ((y Int)) (and (<= 1 (- (* 3 x) (* 3 y))) (<= (- (* 3 x) (* 3 y)) 2)))))\n(check-sat)\n",
        "simsat-strategy 1\ngoals 1\ngoal 0 unsat\nturns tt\nt\nt\nproof 5\npath 0\npart 0 0\npart 0 1\nsum 1 1 1 2 1\nfalse 3\nend\n",
        "accepted unsat\n",
    ),
    (
        "(set-logic LIA)\n(assert (forall ((x Int)) (exists ((y Int)) (forall ((z Int)) (or (<= z y) (> z x))))))\n(check-sat)\n",
        "simsat-strategy 1\ngoals 1\ngoal 0 sat\nturns tot\nt\no 1\nm 1 0 1 0\nt\nproof 7\npath 0\ndef 1 0\npart 0 0\npart 0 1\nsum 1 2 1 3 1\nsum 1 4 1 1 1\nfalse 5\nend\n",
        "accepted sat\n",
    ),
    (
        "(set-logic LIA)\n(assert (and (= (div (- 7) 2) (- 4)) (= (mod (- 7) 2) 1) (= (div 7 (- 2)) (- 3)) (= (mod 7 (- 2)) 1)))\n(check-sat)\n",
        "simsat-strategy 1\ngoals 1\ngoal 0 sat\nturns -\nproof 14\npath 0\ncases 0 4\ncases 1 2\ncases 2 0\ncases 2 0\ncases 1 2\ncases 2 0\ncases 2 0\ncases 1 2\ncases 2 0\ncases 2 0\ncases 1 2\ncases 2 0\ncases 2 0\nend\n",
        "accepted sat\n",
    ),
    (
        "(set-logic LRA)\n(check-sat)\n",
        "simsat-strategy 1\ngoals 1\ngoal 0 sat\nturns -\nproof 2\npath 0\ncases 0 0\nend\n",
        "accepted sat\n",
    ),
    (
        "(set-logic LRA)\n(assert false)\n(check-sat)\n",
        "simsat-strategy 1\ngoals 1\ngoal 0 unsat\nturns -\nproof 2\npath 0\ncases 0 0\nend\n",
        "accepted unsat\n",
    ),
    (
        EVEN_AND_ODD,
        "simsat-strategy 1\ngoals 1\ngoal 0 unsat\nturns t\nt\nproof 7\npath 0\npart 0 0\npart 0 1\ncube 1 2\nleast 0 2\nfalse 1\nfalse 0\nend\n",
        "accepted unsat\n",
    ),
    (
        "(set-info :smt-lib-version 2.6)\n(set-logic LIA)\n(set-info :source |A small example\nof two lines|)\n(set-info :category \"crafted\")\n(set-info :status sat)\n(declare-fun |x y| () Int)\n(declare-const b Bool)\n(define-fun twice ((n Int)) Int (* 2 n))\n(assert (! (let ((x 1) (y (twice |x y|)))\n  (let ((x (+ x 1))) (= y (* 2 x)))) :named a1))\n(assert (=> b (forall ((z Int)) (exists ((w Int)) (and (<= w z) (distinct w z))))))\n(assert b)\n(check-sat)\n(exit)\n",
        "simsat-strategy 1\ngoals 1\ngoal 0 sat\nturns ooto\no 1\nm 1 2\no 1\nm 1 1\nt\no 1\nm 1 -1 1 2\nproof 20\npath 0\ndef 0 0\ndef 0 1\ndef 1 0\ndef 3 1\ncases 0 3\ncases 5 2\nsum 1 6 1 1 1\nfalse 7\nsum 1 6 1 2 1\nfalse 7\npart 5 1\ncases 6 2\nsum 1 7 1 4 1\nfalse 8\npart 7 1\nsum 1 4 1 8 1\nfalse 9\nsum 1 5 1 3 1\nfalse 6\nend\n",
        "accepted sat\n",
    ),
    (
        FOR_ALL_EXISTS,
        "simsat-strategy 1\ngoals 1\ngoal 0 unknown\nend\n",
        "unclaimed\n",
    ),
    (
        FOR_ALL_EXISTS,
        "simsat-strategy 1\ngoals 1\ngoal 0 sat\nturns to\nt\no 1\nm 1 1 1 0\nproof 7\npath 0\ndef 1 0\nsplit >= 0 1 0\nsum 1 0 1 1 1\nfalse 3\nsum 1 0 1 1 1\nfalse 3\nend\n",
        "accepted sat\n",
    ),
    ("", "simsat-strategy 1\ngoals 0\nend\n", ""),
    ("", WON, "rejected 2 goals\n"),
    ("", "x", "rejected 1 form\n"),
    (
        FOR_ALL_EXISTS,
        "simsat-strategy 1\ngoals 0\nend\n",
        "rejected 2 goals\n",
    ),
    (
        FOR_ALL_EXISTS,
        "simsat-strategy 1\ngoals 2\ngoal 0 unknown\ngoal 1 unknown\nend\n",
        "rejected 2 goals\n",
    ),
    (
        FOR_ALL_EXISTS,
        "simsat-strategy 1\ngoals 1\ngoal 0 sat\nturns ot\no 1\nm 1 1\nt\nproof 4\npath 0\ndef 0 0\nsum 1 0 1 1 1\nfalse 2\nend\n",
        "rejected 4 turns\n",
    ),
    (
        FOR_ALL_EXISTS,
        "simsat-strategy 1\ngoals 1\ngoal 0 sat\nturns to\nt\no 1\nm 1 1 1 0\nproof 5\npath 0\ndef 1 0\nsum 1 0 1 1 1\nfalse 2\npath 0\nend\n",
        "rejected 13 form\n",
    ),
    (
        FOR_ALL_EXISTS,
        "simsat-strategy 1\ngoals 1\ngoal 0 sat\nturns to\nt\no 1\nm 1 1 1 0\nproof 3\npath 0\ndef 1 0\nsum 1 0 1 1 1\nend\n",
        "rejected 12 form\n",
    ),
    (
        FOR_ALL_EXISTS,
        "simsat-strategy 1\ngoals 1\ngoal 0 sat\nturns to\nt\no 1\nm 1 1 1 0\nproof 5\npath 0\ndef 1 0\nsplit | 2 0 1 0\nfalse 2\nfalse 2\nend\n",
        "rejected 11 split\n",
    ),
    (
        FOR_ALL_EXISTS,
        "simsat-strategy 1\ngoals 1\ngoal 0 sat\nturns to\nt\no 1\nm 1 1 1 0\nproof 5\npath 0\ndef 1 0\nsplit >= 0 2 0\nfalse 2\nfalse 2\nend\n",
        "rejected 11 split\n",
    ),
    (
        FOR_ALL_EXISTS,
        "simsat-strategy 1\ngoals 1\ngoal 0 sat\nturns to\nt\no 1\nm 1 1 1 0\nproof 5\npath 0\ndef 1 0\ncube 0 1\nleast 0 1\nfalse 0\nend\n",
        "rejected 12 least\n",
    ),
    (
        EVEN_AND_ODD,
        "simsat-strategy 1\ngoals 1\ngoal 0 unsat\nturns t\nt\nproof 7\npath 0\npart 0 0\npart 0 1\ncube 1 2\nleast 0 1\nfalse 1\nfalse 0\nend\n",
        "rejected 13 form\n",
    ),
    (
        EVEN_AND_ODD,
        "simsat-strategy 1\ngoals 1\ngoal 0 unsat\nturns t\nt\nproof 7\npath 0\npart 0 0\npart 0 1\ncube 1 2\nleast 0 3\nfalse 1\nfalse 0\nend\n",
        "rejected 14 form\n",
    ),
    (
        EVEN_AND_ODD,
        "simsat-strategy 1\ngoals 1\ngoal 0 unsat\nturns t\nt\nproof 7\npath 0\npart 0 0\npart 0 1\ncube 1 2\nleast 1 2\nfalse 1\nfalse 0\nend\n",
        "rejected 11 least\n",
    ),
    (
        EVEN_AND_ODD,
        "simsat-strategy 1\ngoals 1\ngoal 0 unsat\nturns t\nt\nproof 7\npath 0\npart 0 0\npart 0 1\ncube 1 2\ncube 1\nfalse 1\nfalse 0\nend\n",
        "rejected 13 form\n",
    ),
    (
        EVEN_AND_ODD,
        "simsat-strategy 1\ngoals 1\ngoal 0 unsat\nturns t\nt\nproof 7\npath 0\npart 0 0\npart 0 1\ncube 1 2\nleast 0 0\nfalse 1\nfalse 0\nend\n",
        "rejected 12 form\n",
    ),
    (
        "(set-logic LRA)\n(declare-const x Real)\n(assert (< x 4503599627370497))\n(check-sat)\n",
        WON,
        "refused 10 Number 3 14\n",
    ),
    (
        "(set-logic LIA)\n(declare-const x Int)\n(assert (<= x 4503599627370496))\n(check-sat)\n",
        WON,
        "refused 10 Number 4 1\n",
    ),
    (
        "(set-logic LRA)\n(declare-const x Real)\n(declare-const y Real)\n(assert (< (* x y) 1))\n",
        WON,
        "refused 8 Linear 4 12\n",
    ),
    (
        "(set-logic LRA)\n(declare-const x Real)\n(declare-const y Real)\n(assert (< (/ x 0) 1))\n",
        WON,
        "refused 9 Divisor 4 12\n",
    ),
    (
        "(set-logic LRA)\n(declare-const x Real)\n(declare-const y Real)\n(assert (< x z))\n",
        WON,
        "refused 5 Symbol 4 14\n",
    ),
    (
        "(set-logic LIA)\n(declare-const x Real)\n",
        WON,
        "refused 6 Sort 2 18\n",
    ),
    (
        "(set-logic LRA)\n(check-sat",
        WON,
        "refused 2 Unclosed 2 1\n",
    ),
    (
        "(set-logic LIA)\n(push 1)\n",
        WON,
        "refused 3 Command 2 1\n",
    ),
    ("(set-logic QF_UF)\n", WON, "refused 4 Logic 1 12\n"),
    ("(set-logic LRA 1)\n", WON, "refused 7 Arity 1 1\n"),
    ("(set-logic LRA) #x\n", WON, "refused 1 Token 1 17\n"),
    ("(check-sat)\n", WON, "refused 13 Order 1 1\n"),
    (
        "(set-option :print-success true)\n",
        WON,
        "refused 14 Setting 1 1\n",
    ),
];

/// A line of WON, what stands in its place, and what is printed for the first script.
pub(crate) const DAMAGED: &[(u64, &str, &str)] = &[
    (1, "simsat-strategy 0", "rejected 1 form\n"),
    (2, "goals 0", "rejected 3 form\n"),
    (3, "goal 1 sat", "rejected 3 form\n"),
    (4, "turns tx", "rejected 4 form\n"),
    (5, "x", "rejected 5 form\n"),
    (6, "o 0", "rejected 6 form\n"),
    (7, "m 1 1 1 1", "rejected 7 form\n"),
    (8, "proof 0", "rejected 8 form\n"),
    (9, "path 1", "rejected 9 path\n"),
    (10, "def 1 1", "rejected 12 false\n"),
    (11, "sum 1 0 1 1 0", "rejected 11 sum\n"),
    (12, "false 0", "rejected 12 false\n"),
    (13, "enx", "rejected 13 form\n"),
    (7, "m 1 0 1 0", "rejected 12 false\n"),
    (11, "sum 0 0 1 1 1", "rejected 11 sum\n"),
    (11, "sum -1 0 1 1 1", "rejected 11 sum\n"),
    (11, "sum 1 0 1 1 2", "rejected 11 sum\n"),
    (9, "path 1", "rejected 9 path\n"),
    (7, "m 2 2 2 0", "rejected 7 move\n"),
    (7, "m 1 4503599627370496 1 0", "rejected 11 sum\n"),
    (7, "m 1 4503599627370497 1 0", "rejected 7 form\n"),
    (10, "def 4294967296 0", "rejected 10 form\n"),
    (10, "def 2 0", "rejected 10 def\n"),
    (10, "def 1 2", "rejected 10 def\n"),
    (10, "def 0 0", "rejected 10 def\n"),
    (11, "sum 1 0 1 2 1", "rejected 11 sum\n"),
    (12, "false 0", "rejected 12 false\n"),
    (12, "false 3", "rejected 12 false\n"),
    (11, "part 0 0", "rejected 11 part\n"),
    (12, "cases 0 1", "rejected 13 form\n"),
    (4, "turns ot", "rejected 5 form\n"),
    (3, "goal 0 unsat", "rejected 4 turns\n"),
    (3, "goal 0 unknown", "rejected 4 form\n"),
    (11, "cube 0 7", "rejected 11 cube\n"),
];
