//! Scripts that come byte by byte, reads and writes that fail, and the ends of memory and of a line.

use crate::streams::{Counting, Holding, Narrow, Slow};
use h5_script::{File, Ran, RunFault, Session, run_script};
use std::io::Cursor;
use std::test::Fail;

const SCRIPT: &[u8] = b"ls\ndataset /d u8 1 contiguous\nls";

const ANSWERS: &[u8] = b"/ group\nok 0\n/ group\n/d dataset u8 {1}\n";

#[test]
fn reads_byte_by_byte(rt: HostRuntime) -> Result<(), Fail> {
    let mut session = Session::new(File::create(rt.alloc())?);
    let mut output = Vec::new(rt.alloc());
    let mut input = Slow {
        rest: SCRIPT,
        reads: 0,
        fails_at: 0,
    };
    let ran = run_script(rt.alloc(), &mut session, &mut input, &mut output)?;
    assert!(rt; ran.refused == 0 && ran.edits == 1);
    assert!(rt; output.as_slice() == ANSWERS);
    Ok(())
}

#[test]
fn leaves_a_line_that_a_failed_read_cuts(rt: HostRuntime) -> Result<(), Fail> {
    let mut session = Session::new(File::create(rt.alloc())?);
    let mut output = Vec::new(rt.alloc());
    let mut input = Slow {
        rest: SCRIPT,
        reads: 0,
        fails_at: SCRIPT.len() + 1,
    };
    let ran = run_script(rt.alloc(), &mut session, &mut input, &mut output);
    assert!(rt; ran == Err(RunFault::ScriptRead) && input.reads == SCRIPT.len() + 1);
    assert!(rt; output.as_slice() == b"/ group\nok 0\n".as_slice());
    Ok(())
}

#[test]
fn stops_where_a_write_fails(rt: HostRuntime) -> Result<(), Fail> {
    let mut session = Session::new(File::create(rt.alloc())?);
    let mut input = SCRIPT;
    let mut output = Narrow {
        taken: Vec::new(rt.alloc()),
        writes: 0,
        fails_at: 11,
    };
    let ran = run_script(rt.alloc(), &mut session, &mut input, &mut output);
    assert!(rt; ran == Err(RunFault::ScriptWrite) && output.writes == 11);
    assert!(rt; output.taken.as_slice() == b"/ group\nok".as_slice());
    assert!(rt; session.file().kind(b"/d").is_ok());
    Ok(())
}

#[test]
fn has_told_all_at_its_end(rt: HostRuntime) -> Result<(), Fail> {
    let mut session = Session::new(File::create(rt.alloc())?);
    let mut input = SCRIPT;
    let mut output = Holding {
        held: Vec::new(rt.alloc()),
        told: Vec::new(rt.alloc()),
    };
    let ran = run_script(rt.alloc(), &mut session, &mut input, &mut output);
    assert!(rt; ran.is_ok() && output.told.as_slice() == ANSWERS);
    Ok(())
}

/// An array whose dump is longer than what is kept back.
const WIDE: &[u8] = b"dataset /d u8 40000 contiguous\ndump /d\n";

#[test]
fn writes_a_dump_as_it_is_made(rt: HostRuntime) -> Result<(), Fail> {
    let mut session = Session::new(File::create(rt.alloc())?);
    let mut input = WIDE;
    let mut output = Counting { longest: 0, all: 0 };
    let ran = run_script(rt.alloc(), &mut session, &mut input, &mut output)?;
    assert!(rt; ran.refused == 0 && output.all == 80045);
    assert!(rt; output.longest > 65536 && output.longest < 80000);
    Ok(())
}

/// A view whose values are longer than what is kept back.
const SHOWN: &[u8] = b"dataset /d u8 40000 contiguous\nview /d 0 1 1 40000\nshow 0\nclose 0\n";

#[test]
fn writes_what_is_shown_as_it_is_made(rt: HostRuntime) -> Result<(), Fail> {
    let mut session = Session::new(File::create(rt.alloc())?);
    let mut input = SHOWN;
    let mut output = Counting { longest: 0, all: 0 };
    let ran = run_script(rt.alloc(), &mut session, &mut input, &mut output)?;
    // `ok 0`, `view 0`, `kept` with 40000 values, and `closed`, each with its line's end.
    assert!(rt; ran.refused == 0 && output.all == 5 + 7 + 80005 + 7);
    assert!(rt; output.longest > 65536 && output.longest < 80000);
    Ok(())
}

/// A view of an array that is then too small for it, and then gone.
const VIEWED: &[u8] =
    b"dataset /d u8 4/8 chunked:3 fill=7\nview /d 1 2 2 1\nshow 0\nresize /d 3\nshow 0\nunlink /d\nshow 0\nclose 0\nshow 0\n";

#[test]
fn shows_views_of_an_array_that_changes(rt: HostRuntime) -> Result<(), Fail> {
    let mut session = Session::new(File::create(rt.alloc())?);
    let mut input = VIEWED;
    let mut output = Vec::new(rt.alloc());
    let ran = run_script(rt.alloc(), &mut session, &mut input, &mut output)?;
    let told =
        b"ok 0\nview 0\nkept 7 7\nok 1\nfault 3 OutsideNow\nok 0\nfault 2 Gone\nclosed\nfault 1 NoSuchView\n";
    assert!(rt; ran.refused == 3 && ran.edits == 3);
    assert!(rt; output.as_slice() == told.as_slice());
    Ok(())
}

#[test]
fn stops_where_a_write_of_a_dump_fails(rt: HostRuntime) -> Result<(), Fail> {
    let mut session = Session::new(File::create(rt.alloc())?);
    let mut input = b"dump /\nls\n".as_slice();
    let mut output = Narrow {
        taken: Vec::new(rt.alloc()),
        writes: 0,
        fails_at: 4,
    };
    let ran = run_script(rt.alloc(), &mut session, &mut input, &mut output);
    assert!(rt; ran == Err(RunFault::ScriptWrite) && output.taken.as_slice() == b"/ g".as_slice());
    Ok(())
}

#[test]
fn refuses_a_long_line_without_an_end(rt: HostRuntime) -> Result<(), Fail> {
    let mut session = Session::new(File::create(rt.alloc())?);
    let mut script = Vec::new(rt.alloc());
    script.resize(1048577, b'#')?;
    let mut input = script.as_slice();
    let mut output = Vec::new(rt.alloc());
    let ran = run_script(rt.alloc(), &mut session, &mut input, &mut output)?;
    assert!(rt; ran.refused == 1 && output.as_slice() == b"bad line\n".as_slice());
    Ok(())
}

/// An array and a list whose answer needs more memory than short ones do.
const LONG: &[u8] =
    b"dataset /a-name-of-more-than-sixty-four-bytes-which-needs-more-memory-than-a-short-answer u8 1 contiguous\nls\n";

const LISTED: &[u8] =
    b"ok 0\n/ group\n/a-name-of-more-than-sixty-four-bytes-which-needs-more-memory-than-a-short-answer dataset u8 {1}\n";

/// What is told at first where lines have run so.
fn told(ran: Ran) -> &'static [u8] {
    if ran.refused == 0 {
        return LISTED;
    }
    if ran.edits == 1 {
        return b"ok 0\nrefused 31 NoMemory\n\0";
    }
    b"refused 31 NoMemory\n/ group\n\0"
}

/// Where an allocation fails (`rt try --test --fail-alloc`), the run ends as out of memory, or a line is refused for it.
#[test]
fn ends_where_memory_is_refused(rt: HostRuntime) {
    let Ok(file) = File::create(rt.alloc()) else {
        return;
    };
    let mut session = Session::new(file);
    let mut input = LONG;
    let mut output = Cursor::new([0u8; 128]);
    let ran = run_script(rt.alloc(), &mut session, &mut input, &mut output);
    match ran {
        Ok(ran) => assert!(rt; output.get_ref().starts_with(told(ran))),
        Err(fault) => assert!(rt; fault == RunFault::NoMemory),
    }
}
