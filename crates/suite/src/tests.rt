use directory::{FlattenedDirectory, LeafDirectory, LeafPaths, ListedDirectory};
use planner::{field_room, root_level_plan};
use sheet::{ExpressionRecord, Fault, NameRef, NodeRecord, RootRecord, Sheet, TypeRecord, open};
use std::alloc::Global;
use std::process::Abort;
use std::test::Fail;

// `id`, an integer, and `leg`, a Struct of `bid` and `ask`; the flattened schema calls the second root `legs`.
// tools/make_suite.py makes it.
const LEG: &[u8; 211] = b"\
    \x01\x00\x0f\x00\x32\x00\x00\x00\x04\x00\x41\x00\x00\x00\x02\x00\x71\x00\x00\x00\x03\x00\x75\x00\
    \x00\x00\x05\x00\x87\x00\x00\x00\x05\x00\x9b\x00\x00\x00\x01\x00\xb9\x00\x00\x00\x01\x00\xd1\x00\
    \x00\x00\x6c\x65\x67\x69\x64\x62\x69\x64\x61\x73\x6b\x6c\x65\x67\x73\x01\x00\x02\x00\x00\x00\x01\
    \x00\x03\x00\x02\x00\x02\x01\x07\x00\x02\x00\x03\x00\x00\x00\x03\x00\x01\x00\x02\x00\x00\x00\x01\
    \x00\x05\x00\x03\x00\x01\x00\x02\x00\x00\x00\x01\x00\x08\x00\x03\x00\x00\x00\x01\x00\x00\x00\x00\
    \x00\x01\x00\x01\x00\x01\x00\x02\x00\x01\x00\x03\x00\x02\x00\x03\x00\x02\x00\x00\x00\x03\x00\x05\
    \x00\x03\x00\x00\x00\x03\x00\x08\x00\x03\x00\x02\x00\x00\x00\x00\x00\x00\x00\x03\x00\x02\x00\x02\
    \x00\x0b\x00\x04\x00\x00\x00\x05\x00\x03\x00\x00\x00\x08\x00\x03\x00\x01\x00\x00\x00\x01\x00\x03\
    \x00\x02\x00\x00\x00\x00\x00\x00\x00\xfe\xff\xff\xff\xff\xff\xff\xff\x00\x00";

// One root, and no leaf in either directory.
const BARE: &[u8; 90] = b"\
    \x01\x00\x00\x00\x32\x00\x00\x00\x01\x00\x32\x00\x00\x00\x01\x00\x3e\x00\x00\x00\x00\x00\x40\x00\
    \x00\x00\x00\x00\x40\x00\x00\x00\x00\x00\x40\x00\x00\x00\x01\x00\x40\x00\x00\x00\x01\x00\x58\x00\
    \x00\x00\x01\x00\x02\x00\x00\x00\x01\x00\x00\x00\x00\x00\x00\x00\x01\x00\x00\x00\x01\x00\x00\x00\
    \x00\x00\x00\x00\x00\x00\x00\x00\x00\x00\x00\x00\x00\x00\x00\x00\x00\x00";

const MARK: TypeRecord = TypeRecord {
    kind: 99,
    nullable: 9,
    detail: 9,
    children: 9,
    span: 9,
    name: NameRef { start: 9, len: 9 },
};

fn opened(heap: Global, bytes: &[u8]) -> Result<Sheet, Fail> {
    open(bytes.to_vec(heap)?).map_err(|_| Fail::new("not opened"))
}

// A sheet: what it holds, and zeros beyond.
#[test]
fn records(rt: HostRuntime) -> Result<(), Fail> {
    let sheet = opened(rt.alloc(), LEG)?;
    assert_eq!(rt; sheet.count::<TypeRecord>(), 4);
    assert_eq!(rt; sheet.record::<TypeRecord>(1).detail, 7);
    assert_eq!(rt;
        sheet.name(sheet.record::<TypeRecord>(1).name),
        b"leg".as_slice()
    );
    assert_eq!(rt; sheet.record::<TypeRecord>(4).kind, 0);
    assert_eq!(rt; sheet.record::<RootRecord>(1).type_place, 1);
    assert_eq!(rt; sheet.root_named(b"leg"), Some(1));
    assert_eq!(rt; sheet.root_named(b"le"), None);
    assert_eq!(rt; sheet.record::<NodeRecord>(0).value, -2);
    assert_eq!(rt; sheet.count::<ExpressionRecord>(), 1);
    assert_eq!(rt; sheet.names().len(), 15);
    Ok(())
}

// Bytes that are no sheet come back as they were, with the fault.
#[test]
fn refused(rt: HostRuntime) -> Result<(), Fail> {
    let mut bytes = *LEG;
    bytes[77] = 9;
    match open(bytes.to_vec(rt.alloc())?) {
        Ok(_) => Err(Fail::new("opened")),
        Err(unopened) => {
            let fault = Fault::BadRecord {
                section: 2,
                record: 1,
            };
            assert_eq!(rt; unopened.fault, fault);
            assert_eq!(rt; fault.number(), 3);
            assert_eq!(rt; fault.place(), 131073);
            assert_eq!(rt; unopened.bytes.as_slice(), bytes.as_slice());
            Ok(())
        }
    }
}

// The four questions, generic: a directory of three leaves whose second root bears this name.
fn asks<D: LeafDirectory>(rt: &impl Abort, directory: &D, root: &[u8]) {
    assert_eq!(rt; directory.count(), 3);
    assert_eq!(rt; directory.root(0), Some(0));
    assert_eq!(rt; directory.root(2), Some(1));
    assert_eq!(rt; directory.root(3), None);
    assert_eq!(rt; directory.parts(2), Some(2));
    assert_eq!(rt; directory.parts(3), None);
    assert_eq!(rt; directory.part_is(2, 0, root), Some(true));
    assert_eq!(rt; directory.part_is(2, 1, b"bid"), Some(false));
    assert_eq!(rt; directory.part_is(2, 2, b"ask"), None);
    assert_eq!(rt; directory.part_is(3, 0, root), None);
}

#[test]
fn directories(rt: HostRuntime) -> Result<(), Fail> {
    let sheet = opened(rt.alloc(), LEG)?;
    let listed = ListedDirectory::new(&sheet);
    asks(&rt, &listed, b"leg");
    let flattened = FlattenedDirectory::new(&sheet);
    asks(&rt, &flattened, b"legs");
    assert!(rt; flattened.part(1, 1) == Some(b"bid".as_slice()));
    assert!(rt; listed.part(0, 1) == None);
    Ok(())
}

// The second root alone, listed twice: leaves 1 and 2, and a field of three records.
#[test]
fn plans(rt: HostRuntime) -> Result<(), Fail> {
    let sheet = opened(rt.alloc(), LEG)?;
    assert_eq!(rt; field_room(&sheet), 4);
    let listed = ListedDirectory::new(&sheet);
    let mut leaves = [9usize; 4];
    let mut fields = [MARK; 5];
    let plan = root_level_plan(&sheet, &listed, &[1, 1], &mut leaves, &mut fields).map_err(
        |_| Fail::new("refused"),
    )?;
    assert_eq!(rt; plan.leaf_count(), 2);
    assert_eq!(rt; plan.field_count(), 1);
    assert_eq!(rt; plan.type_count(), 3);
    assert_eq!(rt; leaves, [1, 2, 0, 0]);
    assert_eq!(rt; fields[0].span, 3);
    assert_eq!(rt; fields[2].kind, 1);
    assert_eq!(rt; fields[3].kind, 0);
    assert_eq!(rt; fields[4].name.len, 0);
    Ok(())
}

// A root that the file lacks is told by its position, and before short buffers; no buffer changes.
#[test]
fn refusals(rt: HostRuntime) -> Result<(), Fail> {
    let sheet = opened(rt.alloc(), LEG)?;
    let listed = ListedDirectory::new(&sheet);
    let mut leaves = [9usize; 2];
    let mut fields = [MARK; 4];
    match root_level_plan(&sheet, &listed, &[0, 2], &mut leaves, &mut fields) {
        Ok(_) => return Err(Fail::new("a root too far")),
        Err(fault) => assert_eq!(rt; fault, Fault::NoRoot { expression: 1 }),
    }
    match root_level_plan(&sheet, &listed, &[0], &mut leaves, &mut fields) {
        Ok(_) => return Err(Fail::new("short")),
        Err(fault) => assert_eq!(rt; fault, Fault::ShortBuffer),
    }
    assert_eq!(rt; leaves, [9, 9]);
    assert_eq!(rt; fields[0].kind, 99);
    Ok(())
}

// A directory with fewer roots than the file: the field is kept, with no leaf.
#[test]
fn a_root_without_leaves(rt: HostRuntime) -> Result<(), Fail> {
    let sheet = opened(rt.alloc(), BARE)?;
    let flattened = FlattenedDirectory::new(&sheet);
    let mut leaves = [9usize; 1];
    let mut fields = [MARK; 1];
    let plan = root_level_plan(&sheet, &flattened, &[0], &mut leaves, &mut fields).map_err(
        |_| Fail::new("refused"),
    )?;
    assert_eq!(rt; plan.leaf_count(), 0);
    assert_eq!(rt; plan.field_count(), 1);
    assert_eq!(rt; leaves, [0]);
    assert_eq!(rt; fields[0].kind, 1);
    Ok(())
}
