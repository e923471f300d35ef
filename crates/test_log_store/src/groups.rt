//! Groups of commits: the steps of their chains, and the bytes of their extents.
use crate::on_disk::{ONE_EXTENT, has_bytes, has_run, new_store, pumps, queue};
use disk::{Area, Disk};
use group::Redeemed;
use log_store::Did;
use std::test::Fail;

#[test]
fn a_commit_takes_five_calls(rt: HostRuntime) -> Result<(), Fail> {
    let mut store = new_store(&rt, rt.alloc());
    let ticket = queue(&rt, rt.alloc(), &mut store, &[7], &[b"a"], 9);
    let ticket = match store.redeem(ticket) {
        Redeemed::Waiting(ticket) => ticket,
        _ => panic!(rt; "not waiting"),
    };
    pumps(&rt, &mut store, ONE_EXTENT);
    match store.redeem(ticket) {
        Redeemed::Done(time) => assert!(rt; time == 100),
        _ => panic!(rt; "not published"),
    }
    assert!(rt; store.last() == 100);
    let mut disk = store.close();
    assert!(rt; disk.len(Area::Status) == Ok(512));
    assert!(rt; disk.len(Area::Heap) == Ok(8193));
    assert!(rt; disk.len(Area::Archive) == Ok(0));
    assert!(rt;
        has_bytes(
            &mut disk,
            Area::Status,
            0,
            b"NOOVER01\x04\0\0\0\x40\0\0\0\0\0\0\0\x01\0\0\0\0\0\0\0",
        )
    );
    assert!(rt;
        has_bytes(
            &mut disk,
            Area::Heap,
            0,
            b"\xc7\0\0\0\x01\0\0\0\0\0\0\0\x21\0\0\0\x02\0\0\0\0\0\0\0\x05\x09\0\0\0\0\0\0\0\x64\0\0\0\0\0\0\0\x01\0\x01\x01\0\x07\0\0\0\0\0\0\0\x01\x01a",
        )
    );
    assert!(rt; has_run(&mut disk, 57, 8193, 0));
    Ok(())
}

#[test]
fn seventeen_commits_share_an_extent(rt: HostRuntime) -> Result<(), Fail> {
    let mut store = new_store(&rt, rt.alloc());
    for record in 0..17 {
        let ticket = queue(&rt, rt.alloc(), &mut store, &[record], &[b"a"], record);
        assert!(rt; ticket.time() == 100 + record);
        ticket.give_up();
    }
    pumps(
        &rt,
        &mut store,
        &[
            Did::WroteExtent,
            Did::GateClosed,
            Did::HeapSynced,
            Did::GateWritten,
            Did::Published(17),
        ],
    );
    let mut disk = store.close();
    assert!(rt;
        has_bytes(
            &mut disk,
            Area::Heap,
            0,
            b"\xc7\0\0\0\x01\0\0\0\0\0\0\0\x31\x02\0\0\x02\0\0\0\0\0\0\0",
        )
    );
    for member in 0..17 {
        let place = 24 + 33 * u64::from(member);
        assert!(rt;
            has_bytes(
                &mut disk,
                Area::Heap,
                place,
                &[
                    5,
                    member,
                    0,
                    0,
                    0,
                    0,
                    0,
                    0,
                    0,
                    100 + member,
                    0,
                    0,
                    0,
                    0,
                    0,
                    0,
                    0,
                    1,
                    0,
                    1,
                    1,
                    0,
                    member,
                    0,
                    0,
                    0,
                    0,
                    0,
                    0,
                    0,
                    1,
                    1,
                    b'a',
                ],
            )
        );
    }
    assert!(rt; has_run(&mut disk, 585, 8193, 0));
    Ok(())
}

#[test]
fn a_record_runs_on_into_the_next_extent(rt: HostRuntime) -> Result<(), Fail> {
    let field = [b'x'; 255];
    let fields: [&[u8]; 16] = [&field; 16];
    let mut store = new_store(&rt, rt.alloc());
    queue(&rt, rt.alloc(), &mut store, &[1, 2], &fields, 1).give_up();
    pumps(
        &rt,
        &mut store,
        &[
            Did::WroteExtent,
            Did::WroteExtent,
            Did::GateClosed,
            Did::HeapSynced,
            Did::GateWritten,
            Did::Published(1),
        ],
    );
    let mut disk = store.close();
    assert!(rt; disk.len(Area::Heap) == Ok(16385));
    assert!(rt;
        has_bytes(
            &mut disk,
            Area::Heap,
            0,
            b"\xc7\0\0\0\x01\0\0\0\x02\0\0\0\xe8\x1f\0\0\x03\0\0\0\0\0\0\0\x05\x01\0\0\0\0\0\0\0\x64\0\0\0\0\0\0\0\x02\0\
              \x01\x01\0\x01\0\0\0\0\0\0\0\x10\xffxxxxxxxx",
        )
    );
    assert!(rt;
        has_bytes(
            &mut disk,
            Area::Heap,
            8192,
            b"\0\0\0\0\x02\0\0\0\0\0\0\0\x43\0\0\0\0\0\0\0\0\0\0\0",
        )
    );
    assert!(rt; has_run(&mut disk, 8216, 8283, b'x'));
    assert!(rt; has_run(&mut disk, 8283, 16385, 0));
    Ok(())
}
