// Bytes of any number are written whole, a few at a time.
use crate::checks::check_at;
use cns_units::write_bytes;
use std::alloc::Global;
use std::process::Abort;

// Numbers of bytes, up to more than a buffer has.
const LENGTHS: [usize; 4] = [0, 4_096, 4_097, 100_000];

fn bytes(rt: &impl Abort, global: Global, length: usize) -> Vec<u8> {
    let mut bytes = Vec::new(global);
    for _byte in 0..length {
        bytes.push(b'x').expect(rt, "memory");
    }
    bytes
}

fn are_written(global: Global, bytes: &[u8]) -> bool {
    let mut written = Vec::new(global);
    write_bytes(bytes, &mut written).is_ok() && written.as_slice() == bytes
}

#[test]
fn bytes_of_any_number_are_written_whole(rt: HostRuntime) {
    for length in &LENGTHS {
        let bytes = bytes(&rt, rt.alloc(), *length);
        check_at(
            &rt,
            are_written(rt.alloc(), bytes.as_slice()),
            *length as u64,
        );
    }
}
