// How large the values are that a book keeps by the million.
use cns_terms::{Activity, Command, Reply, Row, Taken};
use std::mem::size_of;
use std::process::Abort;

#[test]
fn what_is_kept_by_the_million_stays_small(rt: HostRuntime) {
    let sizes = [
        size_of::<Activity>(),
        size_of::<Command>(),
        size_of::<Reply>(),
        size_of::<Taken>(),
        size_of::<Row>(),
    ];
    assert!(rt; sizes == [48, 56, 56, 120, 88]);
}
