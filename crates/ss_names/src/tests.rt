use super::*;

#[test]
fn rows(rt: HostRuntime) {
    assert!(rt; binders().find("forall") == Some(1));
    assert!(rt; binders().find("Forall").is_none());
    assert!(rt; binders().find("").is_none());
    assert!(rt; binders().find("for").is_none());
    assert!(rt; binders().find_bytes(b"exists") == Some(2));
    assert!(rt; operators().find("=>") == Some(6) && operators().find(">=") == Some(13));
    assert!(rt; operators().find("divisible").is_none());
    assert!(rt; commands().find("exit") == Some(8) && commands().find("push").is_none());
    assert!(rt; reserved_words().find("pop") == Some(23) && reserved_words().find("and").is_none());
    assert!(rt; logics().find("QF_LIA") == Some(3) && logics().code(3) == 1);
    assert!(rt; proof_rules().find("false") == Some(8) && proof_rules().code(8) == 1);
}

#[test]
fn kinds(rt: HostRuntime) {
    assert!(rt; FaultKind::Token.number() == 1 && FaultKind::Depth.number() == 15);
    assert!(rt; FaultKind::Setting.name() == "Setting");
    assert!(rt; fault_kinds().find("Order") == Some(12) && fault_kinds().code(12) == 13);
}
