use std::alloc::{AllocError, Global};
use std::process::Abort;
use std::test::Fail;
use table::check;

/// The numbers of a refusal: layer, cause and place.
type Refusal = (u8, u8, usize);

/// Records, and the refusal that they get, if they are not accepted.
struct Case {
    rows: &'static [[u8; 8]],
    refusal: Option<Refusal>,
}

/// The heading of routine 0, with one variable.
const R0: [u8; 8] = [b'R', 0, 0, 1, 0, 0, 0, 0];
/// The heading of routine 1, with one variable.
const R1: [u8; 8] = [b'R', 1, 0, 1, 0, 0, 0, 0];
/// The heading of block 7, without a handler.
const B7: [u8; 8] = [b'B', 7, 0, 0, 0, 0, 0, 0];
/// Returns variable 0.
const T0: [u8; 8] = [b'T', 0, 0, 0, 0, 0, 0, 0];
/// Goes to block 7.
const G7: [u8; 8] = [b'G', 7, 0, 0, 0, 0, 0, 0];
/// Sets variable 0.
const C0: [u8; 8] = [b'C', 0, 0, 0, 1, 2, 3, 4];

const ACCEPTED: [Case; 5] = [
    Case {
        rows: &[R0, T0],
        refusal: None,
    },
    Case {
        rows: &[[b'R', 0, 4, 12, 0, 0, 0, 0], T0],
        refusal: None,
    },
    Case {
        rows: &[R0, C0, G7, B7, T0, R1, G7, B7, T0],
        refusal: None,
    },
    Case {
        rows: &[
            R0,
            G7,
            [b'B', 7, 1, 7, 0, 0, 0, 0],
            [b'X', 0, 0, 0, 0, 0, 0, 0],
        ],
        refusal: None,
    },
    Case {
        rows: &[R0, [b'F', 0, 0, 0, 0, 0, 0, 0], T0],
        refusal: None,
    },
];

const RECORDS: [Case; 12] = [
    Case {
        rows: &[],
        refusal: Some((1, 1, 0)),
    },
    Case {
        rows: &[[b'r', 0, 0, 1, 0, 0, 0, 0], T0],
        refusal: Some((1, 2, 0)),
    },
    Case {
        rows: &[R0, [b'H', 0, 0, 0, 0, 0, 0, 0]],
        refusal: Some((1, 2, 1)),
    },
    Case {
        rows: &[[b'R', 0, 4, 13, 0, 0, 0, 0], T0],
        refusal: Some((1, 3, 0)),
    },
    Case {
        rows: &[[b'R', 0, 4, 252, 0, 0, 0, 0], T0],
        refusal: Some((1, 3, 0)),
    },
    Case {
        rows: &[[b'R', 0, 5, 0, 0, 0, 0, 0], T0],
        refusal: Some((1, 3, 0)),
    },
    Case {
        rows: &[R0, T0, [b'B', 7, 2, 0, 0, 0, 0, 0], T0],
        refusal: Some((1, 3, 2)),
    },
    Case {
        rows: &[R0, [b'A', 0, 6, 0, 0, 0, 0, 0], T0],
        refusal: Some((1, 3, 1)),
    },
    Case {
        rows: &[R0, [b'F', 0, 0, 5, 0, 0, 0, 0], T0],
        refusal: Some((1, 3, 1)),
    },
    Case {
        rows: &[[b'R', 0, 0, 1, 1, 0, 0, 0], T0],
        refusal: Some((1, 4, 0)),
    },
    Case {
        rows: &[R0, T0, [b'B', 7, 0, 0, 1, 0, 0, 0], T0],
        refusal: Some((1, 4, 2)),
    },
    Case {
        rows: &[R0, [b'F', 0, 0, 1, 0, 9, 0, 0], T0],
        refusal: Some((1, 4, 1)),
    },
];

const BLOCKS: [Case; 7] = [
    Case {
        rows: &[B7, T0],
        refusal: Some((2, 5, 0)),
    },
    Case {
        rows: &[R0],
        refusal: Some((2, 6, 1)),
    },
    Case {
        rows: &[R0, B7, T0],
        refusal: Some((2, 6, 1)),
    },
    Case {
        rows: &[R0, C0, R1, T0],
        refusal: Some((2, 6, 2)),
    },
    Case {
        rows: &[R0, T0, B7, C0],
        refusal: Some((2, 6, 4)),
    },
    Case {
        rows: &[R0, T0, T0],
        refusal: Some((2, 7, 2)),
    },
    Case {
        rows: &[R0, T0, B7, T0, C0],
        refusal: Some((2, 7, 4)),
    },
];

const NAMES: [Case; 17] = [
    Case {
        rows: &[R0, T0, R0, T0],
        refusal: Some((3, 9, 2)),
    },
    Case {
        rows: &[R0, G7, R0, T0, B7, T0],
        refusal: Some((3, 9, 2)),
    },
    Case {
        rows: &[R0, T0, R1, T0, R1, T0],
        refusal: Some((3, 9, 4)),
    },
    Case {
        rows: &[R0, T0, B7, T0, B7, T0],
        refusal: Some((3, 10, 4)),
    },
    Case {
        rows: &[R0, T0, B7, T0, R1, T0, B7, T0, B7, T0],
        refusal: Some((3, 10, 8)),
    },
    Case {
        rows: &[R1, T0],
        refusal: Some((3, 11, 2)),
    },
    Case {
        rows: &[R1, C0, G7, B7, T0],
        refusal: Some((3, 11, 5)),
    },
    Case {
        rows: &[[b'R', 0, 0, 0, 0, 0, 0, 0], T0],
        refusal: Some((3, 12, 1)),
    },
    Case {
        rows: &[R0, [b'A', 0, 3, 9, 0, 0, 0, 0], T0],
        refusal: Some((3, 12, 1)),
    },
    Case {
        rows: &[R0, G7, [b'B', 7, 1, 7, 1, 0, 0, 0], T0],
        refusal: Some((3, 12, 2)),
    },
    Case {
        rows: &[R0, G7],
        refusal: Some((3, 13, 1)),
    },
    Case {
        rows: &[R0, G7, [b'B', 7, 1, 0, 0, 0, 0, 0], T0],
        refusal: Some((3, 13, 2)),
    },
    Case {
        rows: &[R0, T0, B7, T0, R1, G7],
        refusal: Some((3, 13, 5)),
    },
    Case {
        rows: &[R0, [b'F', 0, 5, 1, 0, 0, 0, 0], T0],
        refusal: Some((3, 14, 1)),
    },
    Case {
        rows: &[R0, C0, [b'F', 0, 5, 1, 0, 0, 0, 0], T0],
        refusal: Some((3, 14, 2)),
    },
    Case {
        rows: &[R0, [b'F', 0, 1, 1, 0, 0, 0, 0], T0, R1, T0],
        refusal: Some((3, 15, 1)),
    },
    Case {
        rows: &[
            R0,
            [b'F', 0, 5, 0, 0, 0, 0, 0],
            T0,
            [b'R', 5, 1, 0, 0, 0, 0, 0],
            T0,
            [b'R', 5, 0, 1, 0, 0, 0, 0],
            T0,
        ],
        refusal: Some((3, 15, 1)),
    },
];

/// The bytes of some rows, one after another.
fn joined(heap: Global, rows: &[[u8; 8]]) -> Result<Vec<u8>, AllocError> {
    let mut bytes = Vec::new(heap);
    for row in rows {
        bytes.extend_from_slice(row)?;
    }
    Ok(bytes)
}

/// The refusal of some bytes, if they are refused.
fn refusal(bytes: &[u8]) -> Option<Refusal> {
    let fault = check(bytes).err()?;
    Some((fault.layer(), fault.cause(), fault.place()))
}

fn try_all(rt: &impl Abort, heap: Global, cases: &[Case]) -> Result<(), Fail> {
    for (at, case) in cases.iter().enumerate() {
        let bytes = joined(heap, case.rows)?;
        assert_eq!(rt; refusal(bytes.as_slice()), case.refusal, "{}", at);
    }
    Ok(())
}

#[test]
fn accepted(rt: HostRuntime) -> Result<(), Fail> {
    try_all(&rt, rt.alloc(), &ACCEPTED)
}

#[test]
fn refused_by_records(rt: HostRuntime) -> Result<(), Fail> {
    try_all(&rt, rt.alloc(), &RECORDS)
}

#[test]
fn refused_by_blocks(rt: HostRuntime) -> Result<(), Fail> {
    try_all(&rt, rt.alloc(), &BLOCKS)
}

#[test]
fn refused_by_names(rt: HostRuntime) -> Result<(), Fail> {
    try_all(&rt, rt.alloc(), &NAMES)
}

#[test]
fn refused_by_length(rt: HostRuntime) -> Result<(), Fail> {
    assert_eq!(rt; refusal(&[]), Some((1, 1, 0)));
    assert_eq!(rt; refusal(b"R"), Some((1, 1, 0)));
    assert_eq!(rt; refusal(&[0; 15]), Some((1, 1, 0)));
    assert_eq!(rt;
        refusal(long(rt.alloc(), 254)?.as_slice()),
        None,
        "256 records"
    );
    assert_eq!(rt;
        refusal(long(rt.alloc(), 255)?.as_slice()),
        Some((1, 1, 0)),
        "257 records"
    );
    Ok(())
}

/// Routine 0 with `count` instructions before its last.
fn long(heap: Global, count: usize) -> Result<Vec<u8>, AllocError> {
    let mut bytes = joined(heap, &[R0])?;
    for _ in 0..count {
        bytes.extend_from_slice(&C0)?;
    }
    bytes.extend_from_slice(&T0)?;
    Ok(bytes)
}

#[test]
fn refused_by_count(rt: HostRuntime) -> Result<(), Fail> {
    let heap = rt.alloc();
    assert_eq!(rt;
        refusal(headings(heap, &[], R0, 16)?.as_slice()),
        None,
        "16 routines"
    );
    assert_eq!(rt;
        refusal(headings(heap, &[], R0, 17)?.as_slice()),
        Some((2, 8, 32)),
        "17 routines"
    );
    assert_eq!(rt;
        refusal(headings(heap, &[R0, T0], B7, 64)?.as_slice()),
        None,
        "64 blocks"
    );
    assert_eq!(rt;
        refusal(headings(heap, &[R0, T0], B7, 65)?.as_slice()),
        Some((2, 8, 130)),
        "65 blocks"
    );
    assert_eq!(rt;
        refusal(headings(heap, &[R0, C0, T0], B7, 70)?.as_slice()),
        Some((2, 8, 131)),
        "70 blocks"
    );
    Ok(())
}

/// Some rows, and then `count` headings like the one given, with the names 0, 1, .., each with an
/// instruction after it.
fn headings(
    heap: Global,
    rows: &[[u8; 8]],
    heading: [u8; 8],
    count: u8,
) -> Result<Vec<u8>, AllocError> {
    let [letter, _, parameters, locals, ..] = heading;
    let mut bytes = joined(heap, rows)?;
    for name in 0..count {
        bytes.extend_from_slice(&[letter, name, parameters, locals, 0, 0, 0, 0])?;
        bytes.extend_from_slice(&T0)?;
    }
    Ok(bytes)
}
