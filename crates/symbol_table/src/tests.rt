use super::*;
use lin_truth::VarSort;
use ss_names::ScriptFault;

fn known(node: u32) -> Known {
    Known {
        sort: VarSort::Number,
        node,
        signature: 0,
    }
}

fn node_of(found: Option<Known>) -> Option<u32> {
    match found {
        None => None,
        Some(known) => Some(known.node),
    }
}

#[test]
fn hidden_and_restored(rt: HostRuntime) -> Result<(), ScriptFault> {
    let mut names = Names::new(rt.alloc());
    names.push(b"x", known(1))?;
    names.push(b"y", known(2))?;
    names.push(b"x", known(3))?;
    assert!(rt; names.len() == 3);
    assert!(rt; node_of(names.find(b"x")) == Some(3) && node_of(names.find(b"y")) == Some(2));
    names.truncate(1);
    assert!(rt; node_of(names.find(b"x")) == Some(1) && node_of(names.find(b"y")).is_none());
    names.truncate(0);
    assert!(rt; names.len() == 0 && node_of(names.find(b"x")).is_none());
    Ok(())
}
