use lin_truth::{Term, VarSort};
use sqlite_items::Items;
use std::alloc::Global;
use std::test::Fail;
use term_table::*;

// The sum of the last term with itself, sixty times, each time by a definition: no more than three entries each.
#[test]
fn sixty_definitions_that_double(rt: HostRuntime) -> Result<(), Fail> {
    let alloc = rt.alloc();
    let mut table = Table::new(alloc);
    let mut body = table.add(Node::Parameter(0))?;
    for _ in 0..60 {
        let argument = table.add(Node::Parameter(0))?;
        let args = Items::from_slice(alloc, &[argument])?;
        let once = table.add(Node::Use { body, args })?;
        let parts = Items::from_slice(alloc, &[once, once])?;
        body = table.add(Node::Several(Variadic::Plus, parts))?;
    }
    let one = table.add(Node::Leaf(Leaf::Number { num: 1, den: 1 }))?;
    let args = Items::from_slice(alloc, &[one])?;
    let all = table.add(Node::Use { body, args })?;
    let size = table.size(all);
    assert!(rt; size.nodes == 1_048_577);
    assert!(rt; size.depth == 61);
    assert!(rt; size.bindings == 0);
    assert!(rt; table.len() == 182);
    assert!(rt; table.worth(all) == Worth::Large);
    Ok(())
}

// (forall ((y Real)) (and (< x y) (< x y))), with one shared comparison
fn is_shared(term: &Term) -> bool {
    match term {
        Term::Forall(_, body) => match body.get() {
            Term::And(parts) => parts.len() == 2
                && parts.as_slice().iter().all(|part| is_less(part)),
            _ => false,
        },
        _ => false,
    }
}

fn is_less(term: &Term) -> bool {
    match term {
        Term::Less(left, right) => is_variable(left.get(), 0) && is_variable(right.get(), 1),
        _ => false,
    }
}

fn is_variable(term: &Term, place: u32) -> bool {
    match term {
        Term::Var(found) => *found == place,
        _ => false,
    }
}

#[test]
fn a_shared_part_is_written_out_twice(rt: HostRuntime) -> Result<(), Fail> {
    let alloc = rt.alloc();
    let mut table = Table::new(alloc);
    let x = table.add(Node::Leaf(Leaf::Constant(0)))?;
    let y = table.add(Node::Binding(0))?;
    let less = table.add(Node::Two(Binary::Less, x, y))?;
    let parts = Items::from_slice(alloc, &[less, less])?;
    let body = table.add(Node::Several(Variadic::And, parts))?;
    let sorts = Items::from_slice(alloc, &[VarSort::Number])?;
    let all = table.add(Node::Binder {
        quantifier: Quantifier::Forall,
        sorts,
        around: 0,
        body,
    })?;
    let size = table.size(all);
    assert!(rt; size.nodes == 8);
    assert!(rt; size.depth == 4);
    assert!(rt; size.bindings == 1);
    let term = table.tree(all, 1)?;
    assert!(rt; is_shared(&term));
    Ok(())
}

// (- x y) with the arguments of a definition in order
fn is_difference(term: &Term) -> bool {
    match term {
        Term::Minus(left, right) => is_variable(left.get(), 3) && is_variable(right.get(), 5),
        _ => false,
    }
}

#[test]
fn arguments_stand_for_parameters(rt: HostRuntime) -> Result<(), Fail> {
    let alloc = rt.alloc();
    let mut table = Table::new(alloc);
    let a = table.add(Node::Parameter(0))?;
    let b = table.add(Node::Parameter(1))?;
    let body = table.add(Node::Two(Binary::Minus, a, b))?;
    let x = table.add(Node::Leaf(Leaf::Constant(3)))?;
    let y = table.add(Node::Leaf(Leaf::Constant(5)))?;
    let args = Items::from_slice(alloc, &[x, y])?;
    let all = table.add(Node::Use { body, args })?;
    let term = table.tree(all, 6)?;
    assert!(rt; is_difference(&term));
    Ok(())
}

#[test]
fn distinct_parts_count_by_pairs(rt: HostRuntime) -> Result<(), Fail> {
    let alloc = rt.alloc();
    let mut table = Table::new(alloc);
    let x = table.add(Node::Leaf(Leaf::Constant(0)))?;
    let parts = Items::from_slice(alloc, &[x, x, x])?;
    let three = table.add(Node::Distinct(parts))?;
    let size = table.size(three);
    assert!(rt; size.nodes == 13);
    assert!(rt; size.depth == 4);
    let term = table.tree(three, 1)?;
    assert!(rt; matches!(&term, Term::And(_)));
    Ok(())
}

// (f (f .. (f 1))) with sixty definitions, each of which uses the one before it twice and is its parameter in the end.
#[test]
fn sixty_definitions_that_pass_their_argument_on(rt: HostRuntime) -> Result<(), Fail> {
    let alloc = rt.alloc();
    let mut table = Table::new(alloc);
    let mut body = table.add(Node::Parameter(0))?;
    for _ in 0..60 {
        let argument = table.add(Node::Parameter(0))?;
        let args = Items::from_slice(alloc, &[argument])?;
        let once = table.add(Node::Use { body, args })?;
        let args = Items::from_slice(alloc, &[once])?;
        body = table.add(Node::Use { body, args })?;
    }
    let one = table.add(Node::Leaf(Leaf::Number { num: 1, den: 1 }))?;
    let args = Items::from_slice(alloc, &[one])?;
    let all = table.add(Node::Use { body, args })?;
    assert!(rt; table.size(all).nodes == 1);
    assert!(rt; table.worth(all) == Worth::Value { num: 1, den: 1 });
    let term = table.tree(all, 0)?;
    assert!(rt; matches!(&term, Term::Number { .. }));
    Ok(())
}

// (+ 4503599627370496 1 (- 1)) is refused in its first step, (+ 1 (- 1) 4503599627370496) is not.
#[test]
fn sums_go_from_the_left(rt: HostRuntime) -> Result<(), Fail> {
    let alloc = rt.alloc();
    let mut table = Table::new(alloc);
    let most = table.add(Node::Leaf(Leaf::Number {
        num: 4_503_599_627_370_496,
        den: 1,
    }))?;
    let one = table.add(Node::Leaf(Leaf::Number { num: 1, den: 1 }))?;
    let minus = table.add(Node::One(Unary::Negative, one))?;
    let parts = Items::from_slice(alloc, &[most, one, minus])?;
    let wide = table.add(Node::Several(Variadic::Plus, parts))?;
    assert!(rt; table.worth(wide) == Worth::Wide);
    let parts = Items::from_slice(alloc, &[one, minus, most])?;
    let sum = table.add(Node::Several(Variadic::Plus, parts))?;
    assert!(rt;
        table.worth(sum)
            == Worth::Value {
                num: 4_503_599_627_370_496,
                den: 1
            }
    );
    Ok(())
}

// (mod (- 7) (- 2)) is 1, (div (- 7) (- 2)) is 4, (/ 2 (- 4)) is -1/2; with a declared constant there is no value.
#[test]
fn quotients_and_remainders(rt: HostRuntime) -> Result<(), Fail> {
    let alloc = rt.alloc();
    let mut table = Table::new(alloc);
    let seven = table.add(Node::Leaf(Leaf::Number { num: -7, den: 1 }))?;
    let two = table.add(Node::Leaf(Leaf::Number { num: -2, den: 1 }))?;
    let left = table.add(Node::Two(Binary::Mod, seven, two))?;
    assert!(rt; table.worth(left) == Worth::Value { num: 1, den: 1 });
    let whole = table.add(Node::Two(Binary::Div, seven, two))?;
    assert!(rt; table.worth(whole) == Worth::Value { num: 4, den: 1 });
    let four = table.add(Node::Two(Binary::Minus, two, two))?;
    assert!(rt; table.worth(four) == Worth::Value { num: 0, den: 1 });
    let half = table.add(Node::Two(Binary::Quotient, left, two))?;
    assert!(rt; table.worth(half) == Worth::Value { num: -1, den: 2 });
    let x = table.add(Node::Leaf(Leaf::Constant(0)))?;
    let free = table.add(Node::Two(Binary::Minus, half, x))?;
    assert!(rt; table.worth(free) == Worth::Free);
    Ok(())
}

// (define-fun f ((x Int)) Int (* 3 (- x))): its body has no value, (f 5) is -15.
#[test]
fn a_use_is_worked_out_with_its_arguments(rt: HostRuntime) -> Result<(), Fail> {
    let alloc = rt.alloc();
    let mut table = Table::new(alloc);
    let x = table.add(Node::Parameter(0))?;
    let minus = table.add(Node::One(Unary::Negative, x))?;
    let three = table.add(Node::Leaf(Leaf::Number { num: 3, den: 1 }))?;
    let parts = Items::from_slice(alloc, &[three, minus])?;
    let body = table.add(Node::Several(Variadic::Times, parts))?;
    assert!(rt; table.worth(body) == Worth::Free);
    let five = table.add(Node::Leaf(Leaf::Number { num: 5, den: 1 }))?;
    let args = Items::from_slice(alloc, &[five])?;
    let all = table.add(Node::Use { body, args })?;
    assert!(rt; table.worth(all) == Worth::Value { num: -15, den: 1 });
    Ok(())
}

// (define-fun f ((a Int) (b Int)) Int (- a b)), (define-fun g ((a Int) (b Int)) Int (f b a)): (g 1 3) is 2.
#[test]
fn a_definition_that_swaps_its_arguments(rt: HostRuntime) -> Result<(), Fail> {
    let alloc = rt.alloc();
    let mut table = Table::new(alloc);
    let a = table.add(Node::Parameter(0))?;
    let b = table.add(Node::Parameter(1))?;
    let inner = table.add(Node::Two(Binary::Minus, a, b))?;
    let args = Items::from_slice(alloc, &[b, a])?;
    let body = table.add(Node::Use { body: inner, args })?;
    let one = table.add(Node::Leaf(Leaf::Number { num: 1, den: 1 }))?;
    let three = table.add(Node::Leaf(Leaf::Number { num: 3, den: 1 }))?;
    let args = Items::from_slice(alloc, &[one, three])?;
    let all = table.add(Node::Use { body, args })?;
    assert!(rt; table.worth(all) == Worth::Value { num: 2, den: 1 });
    Ok(())
}
