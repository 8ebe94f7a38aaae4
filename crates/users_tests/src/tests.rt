//! Users of objects, and how they follow lines.

use crate::base::Base;
use live_model::Kind::{Node, Relation, Way};
use std::test::Fail;

fn shared<T: Send + Sync>(_: &T) {}

#[test]
fn a_closed_way_and_a_relation_use_a_node_that_is_not_there(rt: HostRuntime) -> Result<(), Fail> {
    let base = Base::of(rt.alloc(), "w10 v1 Nn1,n2,n1\nr20 v1 Mn1@stop,n1@\n")?;
    shared(&base);
    assert!(rt; base.is_used(Node, 1, &[(Way, 10), (Relation, 20)]));
    assert!(rt; base.is_used(Node, 2, &[(Way, 10)]));
    assert!(rt; base.is_used(Way, 10, &[]));
    Ok(())
}

#[test]
fn a_node_that_is_removed_keeps_its_users(rt: HostRuntime) -> Result<(), Fail> {
    let alloc = rt.alloc();
    let mut base = Base::of(alloc, "n1 v1 x1 y1\nn2 v1 x2 y2\nw10 v1 Nn1,n2\n")?;
    base.change(alloc, "n1 v2 dD\nn2 v2 x3 y3\nn2 v3 dD\n")?;
    assert!(rt; !base.has(Node, 1) && !base.has(Node, 2));
    assert!(rt; base.is_used(Node, 1, &[(Way, 10)]));
    assert!(rt; base.is_used(Node, 2, &[(Way, 10)]));
    Ok(())
}

#[test]
fn a_relation_comes_with_itself_and_a_new_way(rt: HostRuntime) -> Result<(), Fail> {
    let alloc = rt.alloc();
    let mut base = Base::of(alloc, "w10 v1 Nn1\nr20 v1 Mw10@,n1@\n")?;
    base.change(alloc, "r21 v1 Mr21@,w11@\nr20 v2 dD\nw11 v1 Nn1\n")?;
    assert!(rt; base.is_used(Relation, 21, &[(Relation, 21)]));
    assert!(rt; base.is_used(Way, 11, &[(Relation, 21)]));
    assert!(rt; base.is_used(Way, 10, &[]));
    assert!(rt; base.is_used(Node, 1, &[(Way, 10), (Way, 11)]));
    Ok(())
}

#[test]
fn what_is_staged_and_dropped_leaves_store_and_index(rt: HostRuntime) -> Result<(), Fail> {
    let alloc = rt.alloc();
    let mut base = Base::of(alloc, "n1 v1 x1 y1\nw10 v1 Nn1\n")?;
    let staged = base.stage(alloc, "w10 v2 Nn2\nn1 v2 dD\n")?;
    shared(&staged);
    drop(staged);
    assert!(rt; base.has(Node, 1));
    assert!(rt; base.is_used(Node, 1, &[(Way, 10)]));
    assert!(rt; base.is_used(Node, 2, &[]));
    Ok(())
}

#[test]
fn a_way_changes_and_goes_in_one_list(rt: HostRuntime) -> Result<(), Fail> {
    let alloc = rt.alloc();
    let mut base = Base::of(alloc, "w10 v1 Nn1,n2\nw11 v1 Nn2\n")?;
    base.change(alloc, "w10 v2 Nn3\n")?;
    base.change(alloc, "w11 v2 Nn4\nw11 v3 dD\n")?;
    assert!(rt; base.is_used(Node, 1, &[]) && base.is_used(Node, 2, &[]));
    assert!(rt; base.is_used(Node, 3, &[(Way, 10)]));
    assert!(rt; base.is_used(Node, 4, &[]));
    Ok(())
}
