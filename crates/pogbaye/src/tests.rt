use crate::failure::Failure;
use crate::fault_text::FaultText;
use crate::names::NameText;
use sheet::Fault;
use std::test::Fail;

// Every refusal of a sheet is one line: number, meaning, section and record.
#[test]
fn refusals_in_words(rt: HostRuntime) -> Result<(), Fail> {
    let bad = FaultText(Fault::BadRecord {
        section: 2,
        record: 5,
    })
    .to_string(rt.alloc())?;
    assert_eq!(rt;
        bad.as_str(),
        "refused with fault 3, the record is bad: types, record 5"
    );
    let many = FaultText(Fault::TooMany { section: 8 }).to_string(rt.alloc())?;
    assert_eq!(rt;
        many.as_str(),
        "refused with fault 2, the section has too many records: expressions"
    );
    let header = FaultText(Fault::BadExtent { section: 0 }).to_string(rt.alloc())?;
    assert_eq!(rt;
        header.as_str(),
        "refused with fault 1, the length or the form number is wrong: header"
    );
    Ok(())
}

#[test]
fn names_of_any_bytes(rt: HostRuntime) -> Result<(), Fail> {
    let name = NameText(b"q\xffy ").to_string(rt.alloc())?;
    assert_eq!(rt; name.as_str(), "q\\xffy ");
    Ok(())
}

// What was called in a wrong way is told with the usage, and what was refused is not.
#[test]
fn misuse(rt: HostRuntime) -> Result<(), Fail> {
    let unknown = Failure::UnknownColumn(String::from_str(rt.alloc(), "nix")?);
    assert!(rt; unknown.is_misuse());
    let text = unknown.to_string(rt.alloc())?;
    assert_eq!(rt; text.as_str(), "unknown column: nix");
    assert!(rt; !Failure::Fault(Fault::ShortBuffer).is_misuse());
    Ok(())
}
