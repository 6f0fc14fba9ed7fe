// What the engine answers to such calls.
use buffer::check::is_lawful;
use buffer::sheet::Sheet;
use buffer::store::Store;
use meta::book::Book;
use meta::item::{Item, ShortLong};
use meta::rejection::Rejection;
use normal::bench::{Bench, Form};
use normal::normalise::normalise;
use std::alloc::{AllocError, Global};
use std::test::Fail;
use usage::usage::usage;

// A flag with both names.
fn flag() -> [u8; 128] {
    let mut record = [0; 128];
    record[0] = 14;
    record[8] = b'v';
    record[32] = b'w';
    record
}

fn one_flag(heap: Global) -> Result<Book, AllocError> {
    let mut book = Book::new(heap, 1, &[], &[])?;
    let _ = book.add(&flag());
    Ok(book)
}

// The number, layer, record and within of a refusal: the four values that a caller is shown.
fn fields<T: Drop>(answer: Result<T, Rejection>) -> Option<(u8, char, u16, u16)> {
    match answer {
        Ok(_) => None,
        Err(e) => Some((e.fault.number(), e.layer.letter(), e.record, e.within)),
    }
}

// The name of a flag on a bench.
fn flag_name(form: Form) -> Option<ShortLong> {
    match form {
        Form::Item {
            item: Item::Flag { name, .. },
            ..
        } => Some(name),
        _ => None,
    }
}

#[test]
fn a_bench_has_three_nodes_for_each_and_two(rt: HostRuntime) -> Result<(), Fail> {
    let book = one_flag(rt.alloc())?;
    let mut small = Bench::new(rt.alloc(), 4)?;
    assert_eq!(rt;
        fields(normalise(&book, 0, true, &mut small)),
        Some((30, 'S', 0, 65535))
    );
    let mut enough = Bench::new(rt.alloc(), 5)?;
    assert_eq!(rt; normalise(&book, 0, true, &mut enough).ok(), Some(0));
    Ok(())
}

#[test]
fn a_root_is_a_node(rt: HostRuntime) -> Result<(), Fail> {
    let book = one_flag(rt.alloc())?;
    let mut bench = Bench::new(rt.alloc(), 0)?;
    assert_eq!(rt;
        fields(normalise(&book, 1, true, &mut bench)),
        Some((20, 'T', 1, 65535))
    );
    assert_eq!(rt;
        fields(normalise(&book, 70000, true, &mut bench)),
        Some((20, 'T', 65535, 65535))
    );
    Ok(())
}

#[test]
fn a_name_is_short_for_usage_and_else_long(rt: HostRuntime) -> Result<(), Fail> {
    let book = one_flag(rt.alloc())?;
    let mut bench = Bench::new(rt.alloc(), 5)?;
    let _ = normalise(&book, 0, true, &mut bench);
    assert!(rt; bench.nodes().len() == 1);
    assert!(rt;
        matches!(
            flag_name(bench.nodes()[0].form),
            Some(ShortLong::Short(b'v'))
        )
    );
    let _ = normalise(&book, 0, false, &mut bench);
    assert!(rt; bench.nodes().len() == 1);
    assert!(rt; matches!(flag_name(bench.nodes()[0].form), Some(ShortLong::Long(_))));
    Ok(())
}

#[test]
fn a_line_that_does_not_fit_leaves_an_empty_sheet(rt: HostRuntime) -> Result<(), Fail> {
    let book = one_flag(rt.alloc())?;
    let mut bench = Bench::new(rt.alloc(), 5)?;
    let mut sheet = Sheet::new(rt.alloc(), 3, 2)?;
    assert_eq!(rt; fields(usage(&book, 0, &mut bench, &mut sheet)), None);
    assert_eq!(rt; sheet.tokens().len(), 3);
    assert_eq!(rt;
        fields(usage(&book, 1, &mut bench, &mut sheet)),
        Some((20, 'T', 1, 65535))
    );
    assert_eq!(rt; sheet.tokens().len(), 3);
    let mut narrow = Sheet::new(rt.alloc(), 3, 1)?;
    assert_eq!(rt;
        fields(usage(&book, 0, &mut bench, &mut narrow)),
        Some((32, 'S', 0, 65535))
    );
    assert_eq!(rt; narrow.tokens().len(), 0);
    Ok(())
}

#[test]
fn the_most_memory_is_there(rt: HostRuntime) -> Result<(), Fail> {
    let book = Book::new(rt.alloc(), usize::MAX, &[], &[])?;
    assert_eq!(rt; book.len(), 0);
    let bench = Bench::new(rt.alloc(), usize::MAX)?;
    assert_eq!(rt; bench.places(), usize::MAX);
    let sheet = Sheet::new(rt.alloc(), usize::MAX, usize::MAX)?;
    assert_eq!(rt; sheet.tokens().len(), 0);
    Ok(())
}

// As many marks as a store has, of a text and of blocks that nest as deep as they can.
fn fullest_marks() -> [u8; 8192] {
    let mut marks = [0; 8192];
    marks[3] = 64;
    for start in marks[4..4096].chunks_exact_mut(4) {
        start[0] = 1;
    }
    for end in marks[4096..8188].chunks_exact_mut(4) {
        end[0] = 2;
    }
    marks[8188] = 3;
    marks
}

#[test]
fn the_fullest_store_opens(rt: HostRuntime) -> Result<(), Fail> {
    let marks = fullest_marks();
    let text = [b'a'; 16384];
    assert!(rt; is_lawful(&marks, &text));
    let store = Store::open(rt.alloc(), &marks, &text)?;
    assert_eq!(rt; store.len(), 1);
    assert_eq!(rt; store.note(0).map(|note| note.text().len()), Some(16384));
    assert!(rt; store.note(1).is_none());
    Ok(())
}

// As many notes as a store has: texts of 16 bytes, each with a stop behind it.
fn many_notes() -> [u8; 8192] {
    let mut marks = [0; 8192];
    for note in marks.chunks_exact_mut(8) {
        note[2] = 16;
        note[4] = 3;
    }
    marks
}

#[test]
fn a_store_of_many_notes_opens(rt: HostRuntime) -> Result<(), Fail> {
    let text = [b'a'; 16384];
    let store = Store::open(rt.alloc(), &many_notes(), &text)?;
    assert_eq!(rt; store.len(), 1024);
    assert_eq!(rt; store.note(1023).map(|note| note.text().len()), Some(16));
    Ok(())
}

#[test]
fn a_store_of_blank_notes_opens(rt: HostRuntime) -> Result<(), Fail> {
    let mut marks = [0; 8192];
    for stop in marks.chunks_exact_mut(4) {
        stop[0] = 3;
    }
    let store = Store::open(rt.alloc(), &marks, &[])?;
    assert_eq!(rt; store.len(), 2048);
    assert!(rt; store.note(2047).is_some_and(|note| note.is_blank()));
    Ok(())
}

#[test]
fn a_store_is_not_larger_than_it_may_be(rt: HostRuntime) -> Result<(), Fail> {
    let mut marks = [0; 8196];
    for stop in marks.chunks_exact_mut(4) {
        stop[0] = 3;
    }
    assert!(rt; !is_lawful(&marks, &[]));
    assert!(rt; !is_lawful(&[], &[b'a'; 16385]));
    Ok(())
}
