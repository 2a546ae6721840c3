// What is answered in a source whose root is another text than that of its sheet's first row, as by a caller that has the capnp
// crate at another path: the texts of the sheet with this root.
use super::*;
use std::test::Fail;

// A bed, with one slot, its name.
const SHEET: &[u8] = b"R ::capnp
N                    7                    0                    0                    1                    0                    \
0                    0 bed
F                    0                65535                    0                    0 name
T                   12                    0                    0                    0
V                   12                    0
";

const OWNED: Accessor = Accessor::TypeText {
    leaf: Some(Leaf::Owned),
};

// The sheet's own root and another one, each with the slot's type as it stands in the setter that capnpc's functions give for a
// sheet whose first row has this root (`oracle accessors`).
const TEXTS: [(&[u8], &[u8]); 2] = [
    (b"::capnp", b"::capnp::text::Owned"),
    (b"::mine", b"::mine::text::Owned"),
];

#[test]
fn answers_in_a_source(rt: HostRuntime) -> Result<(), Fail> {
    let mut index = [0u64; SHORT_INDEX];
    assert!(rt; sheet::admit(SHEET, &mut index).is_ok());
    let request = Some(Request::Field {
        place: 0,
        accessor: OWNED,
    });
    for (root, wanted) in TEXTS {
        let source = Source {
            root,
            bytes: SHEET,
            index: &index,
        };
        let mut buf = [0u8; 24];
        let answer = answer_in(&source, 7, request, Text::at(1), &mut buf);
        let fill = answer.map_or(0, |t| t.fill());
        assert_eq!(rt; fill, 1 + wanted.len());
        assert_eq!(rt; &buf[1..fill], wanted);
    }
    Ok(())
}

#[test]
fn writes_in_a_source(rt: HostRuntime) -> Result<(), Fail> {
    let mut index = [0u64; SHORT_INDEX];
    assert!(rt; sheet::admit(SHEET, &mut index).is_ok());
    for (root, wanted) in TEXTS {
        let source = Source {
            root,
            bytes: SHEET,
            index: &index,
        };
        let node = source.nth(0).ok_or("a node")?;
        let name = field::at_place(SHEET, node.fields, 0);
        let mut buf = [0u8; 24];
        let size = text(&source, 0, name, Some(OWNED), 0, &mut buf).unwrap_or(0);
        assert_eq!(rt; size, wanted.len());
        assert_eq!(rt; &buf[..size], wanted);
    }
    Ok(())
}
