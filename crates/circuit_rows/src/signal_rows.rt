//! Signal lists over one circuit.

use SigKind::{Empty, Form, NoName, Range, Repeated, TooMany, TwoNames};
use aig_ascii::read_aag;
use aig_model::{Circuit, Lit, Signals};
use signal_list::{SigFault, SigKind, read_signals};
use std::alloc::Global;
use std::test::Fail;
use text_words::lines_at_most_bytes;

/// The literals 2 and 4 are inputs, 6 is a latch and an output; the greatest literal is 13. A latch and an output
/// share a name, and a constraint has one.
const CIRCUIT: &[u8] = b"aag 6 2 1 3 0 1 1\n2\n4\n6 3\n6\n7\n1\n3\n5\n\
    i0 enable\ni1 a b\nl0 Q\no0 Q\nc0 bound\n";

fn read(alloc: Global, circuit: &Circuit, text: &[u8]) -> Result<Signals, Option<SigFault>> {
    if text.len() >= 1000 {
        return Err(None);
    }
    lines_at_most_bytes(text);
    read_signals(alloc, text, circuit).map_err(Some)
}

/// A text, and the line and kind of its first fault.
type Fault = (&'static [u8], u32, SigKind);

const FAULTS: [Fault; 45] = [
    (b"", 0, Empty),
    (b"\n  \r\n# i0\n   #l0", 0, Empty),
    (b"x", 1, Form),
    (b"# i0\n\n i0\nI0\ni9", 4, Form),
    (b"i", 1, Form),
    (b"i0x", 1, Form),
    (b"i 0", 1, Form),
    (b"l-1", 1, Form),
    (b"c0", 1, Form),
    (b"\ti0", 1, Form),
    (b"l0\r ", 1, Form),
    (b"@", 1, Form),
    (b"  @  ", 1, Form),
    (b"i2\nx", 1, Range),
    (b"l1", 1, Range),
    (b"o3", 1, Range),
    (b"b1", 1, Range),
    (b"n14", 1, Range),
    (b"i4294967296", 1, Range),
    (b"n4294967296", 1, Range),
    (b"l18446744073709551616", 1, Range),
    (b"n99999999999999999999999999", 1, Range),
    (b"@nothing", 1, NoName),
    (b"@enabl", 1, NoName),
    (b"@enables", 1, NoName),
    (b"@ enable", 1, NoName),
    (b"@a  b", 1, NoName),
    (b"@q", 1, NoName),
    (b"i0\n@Q", 2, TwoNames),
    (b"l0\n@Q", 2, TwoNames),
    (b"l0\nl0\n@nothing", 2, Repeated),
    (b"l0\n@nothing\nl0", 2, NoName),
    (b"l0\no0", 2, Repeated),
    (b"i0\n@enable", 2, Repeated),
    (b"n2\n\n#\n  i0", 4, Repeated),
    (b"n0\nn1\nn2\nn3\nn4\nn5\nn6\nn7\nn8\nn9\nn10", 11, TooMany),
    (
        b"n0\nn1\nn2\nn3\nn4\nn5\nn6\nn7\nn8\nn9\n#\nn10\nx",
        12,
        TooMany,
    ),
    (b"n0\nn1\nn2\nn3\nn4\nn5\nn6\nn7\nn8\nn9\nn0", 11, Repeated),
    (
        b"n0\nn1\nn2\nn3\nn4\nn5\nn6\nn7\nn8\nn9\n@enable",
        11,
        Repeated,
    ),
    (b"n0\nn1\nn2\nn3\nn4\nn5\nn6\nn7\nn8\nn9\n@Q", 11, TwoNames),
    (b"n0\nn1\nn2\nn3\nn4\nn5\nn6\nn7\nn8\nn9\n@x", 11, NoName),
    (b"n0\nn1\nn2\nn3\nn4\nn5\nn6\nn7\nn8\nn9\nn14", 11, Range),
    (b"n0\nn1\nn2\nn3\nn4\nn5\nn6\nn7\nn8\nn9\nn", 11, Form),
    (b"i0\n\xff", 2, Form),
    (b"@\xff", 1, NoName),
];

fn is_refused(alloc: Global, circuit: &Circuit, row: &Fault) -> bool {
    let (text, line, kind) = *row;
    read(alloc, circuit, text).err() == Some(Some(SigFault::At { line, kind }))
}

#[test]
fn faults_at_their_lines(rt: HostRuntime) -> Result<(), Fail> {
    let circuit = read_aag(rt.alloc(), CIRCUIT)?;
    for (place, row) in FAULTS.iter().enumerate() {
        assert!(rt; is_refused(rt.alloc(), &circuit, row), "row {place}");
    }
    Ok(())
}

/// A text, and the literals that it chooses.
type List = (&'static [u8], &'static [u32]);

const LISTS: [List; 6] = [
    (b"i1\nl0\no1\nb0\nn013\n@bound", &[4, 6, 7, 3, 13, 5]),
    (
        b"# a comment\r\n\r\n  @enable  \r\n@a b\r\r\nn0\r\n",
        &[2, 4, 0],
    ),
    (b"l00000000000000000000000000000000000", &[6]),
    (b"o2\no1\no0\n", &[1, 7, 6]),
    (
        b"n0\nn1\nn2\nn3\nn4\nn5\nn6\nn7\nn8\nn9\n#n10\n\n",
        &[0, 1, 2, 3, 4, 5, 6, 7, 8, 9],
    ),
    (b"\n\n i0", &[2]),
];

fn are_lits(lits: &[Lit], wanted: &[u32]) -> bool {
    lits.len() == wanted.len()
        && lits
            .iter()
            .zip(wanted)
            .all(|(lit, value)| lit.value() == *value)
}

fn is_read(alloc: Global, circuit: &Circuit, row: &List) -> bool {
    match read(alloc, circuit, row.0) {
        Ok(signals) => are_lits(signals.lits().as_slice(), row.1),
        Err(_) => false,
    }
}

#[test]
fn lists_in_all_forms(rt: HostRuntime) -> Result<(), Fail> {
    let circuit = read_aag(rt.alloc(), CIRCUIT)?;
    for (place, row) in LISTS.iter().enumerate() {
        assert!(rt; is_read(rt.alloc(), &circuit, row), "row {place}");
    }
    Ok(())
}
