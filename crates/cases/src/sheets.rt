// Whole sheets: their length, and the words of a form in their places.
use sheet::reading::{read, verdict};
use std::alloc::{AllocError, Global};
use std::test::Fail;

// A house form and spaces behind it, of so many bytes.
fn padded(heap: Global, bytes: usize) -> Result<Vec<u8>, AllocError> {
    let mut sheet = Vec::new(heap);
    sheet.extend_from_slice(b"(house 1 series)")?;
    sheet.resize(bytes, b' ')?;
    Ok(sheet)
}

// The number and line of a sheet's fault as docs/REFUSALS.md gives them, and two zeros where it is accepted.
fn judged(sheet: &[u8]) -> (u32, u32) {
    match verdict(sheet) {
        Ok(()) => (0, 0),
        Err(fault) => (fault.number(), fault.line()),
    }
}

#[test]
fn length_is_limited(rt: HostRuntime) -> Result<(), Fail> {
    assert_eq!(rt; judged(padded(rt.alloc(), 65536)?.as_slice()), (0, 0));
    assert_eq!(rt; judged(padded(rt.alloc(), 65537)?.as_slice()), (20, 1));
    let spaces = vec![in rt.alloc(); b' '; 65536]?;
    assert_eq!(rt; judged(spaces.as_slice()), (22, 1));
    let bytes = vec![in rt.alloc(); 255u8; 65537]?;
    assert_eq!(rt; judged(bytes.as_slice()), (20, 1));
    Ok(())
}

#[test]
fn words_have_their_places(rt: HostRuntime) -> Result<(), Fail> {
    let sheet = b"(house 1 series)\n;\n  (settle( at 5))";
    // By hand: `expect` prints a fault, which has no `Debug`.
    let Ok(forms) = read(rt.alloc(), sheet) else {
        return Err(Fail::new("the sheet is legal"));
    };
    assert!(rt; forms.len() == 2);
    assert_eq!(rt; forms[1].line, 3);
    let mut words = forms[1].words();
    // By hand: how many were looked at is itself what is tested.
    let mut found = 0u32;
    for (text, column) in [(&b"settle"[..], 4u32), (&b"at"[..], 12), (&b"5"[..], 15)] {
        let Some(word) = words.next_word() else {
            return Err(Fail::new("a word is missing"));
        };
        assert!(rt; word.bytes == text);
        assert_eq!(rt; (word.line, word.column), (3, column));
        found = found.saturating_add(1);
    }
    assert_eq!(rt; found, 3);
    assert!(rt; words.next_word().is_none());
    Ok(())
}
