//! The directory of logs over real files, for each test in a folder of its own.
use crate::words::{C2_B, M1_A, answer, entered, read, synced};
use co_files::HomeStd;
use co_outside::{Home, HomeFault};
use std::alloc::Global;
use std::fs::Permissions;
use std::os::unix::fs::{PermissionsExt, symlink};
use std::{fs, io};

/// The directory that is made.
const INNER: &str = "home_std_folder/inner";

/// Writes a file twice and cuts it.
fn write_and_cut(alloc: Global, home: &mut HomeStd) -> Result<(), HomeFault> {
    home.write_at(alloc, M1_A, 0, b"abcdef")?;
    home.write_at(alloc, M1_A, 4, b"XYZ")?;
    home.set_len(M1_A, 6)
}

/// The answers of a home whose directory is made.
fn first_answers(alloc: Global, home: &mut HomeStd) -> [&'static str; 6] {
    [
        synced(home, M1_A),
        entered(alloc, home, INNER),
        read(alloc, home, M1_A, 9, b""),
        answer(write_and_cut(alloc, home)),
        synced(home, M1_A),
        synced(home, C2_B),
    ]
}

/// The answers of a home that enters it again.
fn later_answers(alloc: Global, home: &mut HomeStd) -> [&'static str; 3] {
    [
        entered(alloc, home, INNER),
        read(alloc, home, M1_A, 99, b"abcdXY"),
        read(alloc, home, C2_B, 99, b""),
    ]
}

/// Whether a new home writes, as it is wanted.
fn is_written(rt: &HostRuntime) -> io::Result<bool> {
    let mut home = HomeStd::new(rt.clone()?);
    Ok(first_answers(rt.alloc(), &mut home) == ["failed", "done", "these", "done", "done", "done"])
}

/// Whether another home reads what it wrote.
fn is_read_back(rt: &HostRuntime) -> io::Result<bool> {
    let mut home = HomeStd::new(rt.clone()?);
    Ok(later_answers(rt.alloc(), &mut home) == ["done", "these", "these"])
}

/// Whether the file of the node has the bytes.
fn is_named(rt: &HostRuntime) -> io::Result<bool> {
    let named = fs::read(rt, "home_std_folder/inner/m1.a")?;
    Ok(named.as_slice() == b"abcdXY".as_slice())
}

#[test]
fn a_home_of_real_files_is_read_back_when_opened_again(rt: HostRuntime) {
    assert!(rt; matches!(is_written(&rt), Ok(true)));
    assert!(rt; matches!(is_read_back(&rt), Ok(true)));
    assert!(rt; matches!(is_named(&rt), Ok(true)));
    assert!(rt; done(fs::remove_dir_all(&rt, "home_std_folder")));
}

/// The answers of a home that uses a file which is not there, and what it is answered where it would leave a gap.
fn absent_answers(alloc: Global, home: &mut HomeStd) -> [&'static str; 5] {
    [
        entered(alloc, home, "absent_file/one/two"),
        read(alloc, home, M1_A, 9, b""),
        synced(home, M1_A),
        answer(home.set_len(M1_A, 0)),
        answer(home.write_at(alloc, M1_A, 1, b"x")),
    ]
}

/// Whether a call of the system was done; its fault is dropped here alone.
fn done(called: io::Result<()>) -> bool {
    called.is_ok()
}

/// Whether there is a file.
fn exists(rt: &HostRuntime, path: &str) -> bool {
    matches!(fs::exists(rt, path), Ok(true))
}

/// Whether only a write makes a file that is not there.
fn is_made_by_a_write(rt: &HostRuntime, home: &mut HomeStd) -> bool {
    absent_answers(rt.alloc(), home) == ["done", "these", "done", "done", "failed"]
        && !exists(rt, "absent_file/one/two/m1.a")
        && answer(home.write_at(rt.alloc(), M1_A, 0, b"x")) == "done"
        && exists(rt, "absent_file/one/two/m1.a")
}

/// The same of a new home.
fn is_made(rt: &HostRuntime) -> io::Result<bool> {
    let mut home = HomeStd::new(rt.clone()?);
    Ok(is_made_by_a_write(rt, &mut home))
}

#[test]
fn an_absent_file_is_empty_and_only_a_write_makes_it(rt: HostRuntime) {
    assert!(rt; matches!(is_made(&rt), Ok(true)));
    assert!(rt; done(fs::remove_dir_all(&rt, "absent_file")));
}

/// The answers of two homes that enter one directory.
fn shared_answers(alloc: Global, one: &mut HomeStd, other: &mut HomeStd) -> [&'static str; 5] {
    [
        entered(alloc, one, "shared/held"),
        entered(alloc, other, "shared/held"),
        entered(alloc, one, "shared/./held"),
        entered(alloc, one, "shared/next"),
        entered(alloc, other, "shared/held"),
    ]
}

/// Whether a directory that one home holds is refused to another.
fn is_refused(rt: &HostRuntime) -> io::Result<bool> {
    let mut one = HomeStd::new(rt.clone()?);
    let mut other = HomeStd::new(rt.clone()?);
    let answers = shared_answers(rt.alloc(), &mut one, &mut other);
    Ok(answers == ["done", "failed", "done", "done", "done"])
}

#[test]
fn a_directory_that_a_home_holds_is_refused_to_another(rt: HostRuntime) {
    assert!(rt; matches!(is_refused(&rt), Ok(true)));
    assert!(rt; done(fs::remove_dir_all(&rt, "shared")));
}

/// What the calls on part `a` of member 1 are answered.
fn calls(alloc: Global, home: &mut HomeStd) -> [&'static str; 4] {
    [
        read(alloc, home, M1_A, 9, b"abc"),
        answer(home.write_at(alloc, M1_A, 0, b"xy")),
        answer(home.set_len(M1_A, 2)),
        synced(home, M1_A),
    ]
}

/// Each call fails.
const ALL_FAIL: [&str; 4] = ["failed", "failed", "failed", "failed"];

/// Whether a new home is answered so in a folder.
fn answered(rt: &HostRuntime, folder: &str, wanted: [&str; 4]) -> io::Result<bool> {
    let mut home = HomeStd::new(rt.clone()?);
    let _ = entered(rt.alloc(), &mut home, folder);
    Ok(calls(rt.alloc(), &mut home) == wanted)
}

/// The same, where the runtime can be had once more.
fn is_answered(rt: &HostRuntime, folder: &str, wanted: [&str; 4]) -> bool {
    matches!(answered(rt, folder, wanted), Ok(true))
}

#[test]
fn a_folder_is_a_fault(rt: HostRuntime) {
    assert!(rt; done(fs::create_dir_all(&rt, "no_plain_file/m1.a")));
    assert!(rt; is_answered(&rt, "no_plain_file", ALL_FAIL));
    assert!(rt; done(fs::remove_dir_all(&rt, "no_plain_file")));
}

#[test]
fn a_link_is_a_fault(rt: HostRuntime) {
    assert!(rt; done(fs::create_dir_all(&rt, "link")));
    assert!(rt; done(symlink(&rt, "elsewhere", "link/m1.a")));
    assert!(rt; is_answered(&rt, "link", ALL_FAIL));
    assert!(rt; done(fs::remove_dir_all(&rt, "link")));
}

/// Whether a folder is made with a file in it.
fn is_laid(rt: &HostRuntime, folder: &str, file: &str) -> bool {
    done(fs::create_dir_all(rt, folder)) && done(fs::write(rt, file, "abc"))
}

/// The answers where a file stands at two spots.
fn twin_answers(alloc: Global, home: &mut HomeStd) -> [&'static str; 3] {
    [
        entered(alloc, home, "two_spots"),
        read(alloc, home, M1_A, 9, b"abc"),
        read(alloc, home, C2_B, 9, b"abc"),
    ]
}

/// Whether only the first spot is read.
fn is_read_once(rt: &HostRuntime) -> io::Result<bool> {
    let mut home = HomeStd::new(rt.clone()?);
    Ok(twin_answers(rt.alloc(), &mut home) == ["done", "these", "failed"])
}

#[test]
fn a_file_of_two_spots_is_a_fault(rt: HostRuntime) {
    assert!(rt; is_laid(&rt, "two_spots", "two_spots/m1.a"));
    assert!(rt; done(fs::hard_link(&rt, "two_spots/m1.a", "two_spots/c2.b")));
    assert!(rt; matches!(is_read_once(&rt), Ok(true)));
    assert!(rt; done(fs::remove_dir_all(&rt, "two_spots")));
}

/// What the calls of a log write on it are answered, which makes it longer, behind a read of it.
fn append_calls(alloc: Global, home: &mut HomeStd) -> [&'static str; 3] {
    [
        read(alloc, home, M1_A, 9, b"xy"),
        answer(home.write_at(alloc, M1_A, 2, b"z")),
        synced(home, M1_A),
    ]
}

/// A read and a sync look the file up at its path, and a write does not.
const READ_AND_SYNC_FAIL: [&str; 3] = ["failed", "done", "failed"];

/// Whether a home that used a file fails once it is gone, also where there is a new one.
fn fails_once_it_is_gone(rt: &HostRuntime, home: &mut HomeStd) -> bool {
    entered(rt.alloc(), home, "gone") == "done"
        && calls(rt.alloc(), home) == ["these", "done", "done", "done"]
        && done(fs::remove_file(rt, "gone/m1.a"))
        && append_calls(rt.alloc(), home) == READ_AND_SYNC_FAIL
        && done(fs::write(rt, "gone/m1.a", "xyz"))
        && append_calls(rt.alloc(), home) == READ_AND_SYNC_FAIL
}

/// The same of a new home.
fn is_gone(rt: &HostRuntime) -> io::Result<bool> {
    let mut home = HomeStd::new(rt.clone()?);
    Ok(fails_once_it_is_gone(rt, &mut home))
}

#[test]
fn a_file_that_has_gone_is_a_fault(rt: HostRuntime) {
    assert!(rt; is_laid(&rt, "gone", "gone/m1.a"));
    assert!(rt; matches!(is_gone(&rt), Ok(true)));
    assert!(rt; done(fs::remove_dir_all(&rt, "gone")));
}

/// Lets a path be used as a mode says: whether that was done.
fn permit(rt: &HostRuntime, path: &str, mode: u32) -> bool {
    done(fs::set_permissions(rt, path, Permissions::from_mode(mode)))
}

/// Whether this user may do what a mode forbids.
fn may_all(rt: &HostRuntime, forbidden: &str) -> bool {
    fs::read(rt, forbidden).is_ok()
}

/// Whether a file that may not be used fails, and one that may be read is read alone, up to the first write.
fn is_forbidden(rt: &HostRuntime) -> bool {
    let read_alone = ["these", "failed", "failed", "failed"];
    is_answered(rt, "forbidden", ALL_FAIL)
        && permit(rt, "forbidden/m1.a", 0o400)
        && is_answered(rt, "forbidden", read_alone)
}

#[test]
fn a_file_without_permission_is_a_fault(rt: HostRuntime) {
    assert!(rt; is_laid(&rt, "forbidden", "forbidden/m1.a"));
    assert!(rt; permit(&rt, "forbidden/m1.a", 0));
    assert!(rt; may_all(&rt, "forbidden/m1.a") || is_forbidden(&rt));
    assert!(rt; done(fs::remove_dir_all(&rt, "forbidden")));
}

/// The answer of a new home that enters a directory.
fn entered_anew(rt: &HostRuntime, dir: &str) -> io::Result<&'static str> {
    let mut home = HomeStd::new(rt.clone()?);
    Ok(entered(rt.alloc(), &mut home, dir))
}

#[test]
fn a_parent_that_may_not_be_read_is_passed_where_nothing_was_missing(rt: HostRuntime) {
    assert!(rt; is_laid(&rt, "unsynced/inner", "unsynced/probe"));
    assert!(rt; permit(&rt, "unsynced/probe", 0) && permit(&rt, "unsynced", 0o300));
    let passes = matches!(entered_anew(&rt, "unsynced/inner"), Ok("done"));
    let fails = matches!(entered_anew(&rt, "unsynced/other"), Ok("failed"));
    assert!(rt; may_all(&rt, "unsynced/probe") || passes && fails);
    assert!(rt; permit(&rt, "unsynced", 0o700));
    assert!(rt; done(fs::remove_dir_all(&rt, "unsynced")));
}
