// The files of a folder: each of them is whole, or is not there.
ghost use Rattle.std.specs.Prelude.{◌≡◌, ◌++◌, IfOk, OnOk, string_bytes};
ghost use Rattle.cns_page.specs.Files.{and_kept, name_text};

use cns_shell::Fault;
use cns_tables::{Piece, write_form, write_markup};
use cns_terms::NoMemory;
use cns_units::{Account, Day};
use std::alloc::{AllocError, Global};
use std::fs;
use std::fs::File;
use std::io::{Error, ErrorKind, Write};
use std::rt::Files;

/// The page of a closed day, of all accounts or of one.
#[derive(Clone, Copy)]
pub(crate) struct Named {
    pub(crate) date: Day,
    pub(crate) account: Option<Account>,
}

// A file's name, but for its end: the date, and the account where the page is one's.
const OF_DAY: &str = "/_";

const OF_ACCOUNT: &str = "/_-_";

const PAGE: &str = ".html";

// What a file's name ends with until the file is whole.
const PART: &str = ".html.part";

// Adds a file's name, but for its end.
fn write_stem(named: &Named, out: &mut Vec<u8>) -> Result<(), AllocError>
    ensures { OnOk result (out.new.items ≡ out.old.items ++ name_text named.now) }
{
    let date = Piece::Date(named.date);
    match named.account {
        Some(account) => {
            let number = Piece::Number(u64::from(account.value()));
            write_form(OF_ACCOUNT, &[date, number], out)
        }
        None => write_form(OF_DAY, &[date], out),
    }
}

// Adds a file's name with its end.
#[tactic(auto, using(cns_tables::proofs::Written::after))]
fn write_name(named: &Named, end: &'static str, out: &mut Vec<u8>) -> Result<(), AllocError>
    ensures { OnOk result (out.new.items ≡ out.old.items ++ (name_text named.now ++ end.now)) }
{
    write_stem(named, out)?;
    write_markup(end, out)
}

// The path of a file in a folder.
fn path_of(
    alloc: Global,
    folder: &str,
    named: &Named,
    end: &'static str,
) -> Result<String, NoMemory>
    ensures { IfOk result (λ s. string_bytes s ≡ folder.now ++ (name_text named.now ++ end.now)) }
{
    let mut path = Vec::new(alloc);
    path.extend_from_slice(folder.as_bytes())?;
    write_name(named, end, &mut path)?;
    match String::from_utf8(path) {
        Ok(path) => Ok(path),
        Err(_) => Err(NoMemory),
    }
}

// Why a file could not be read.
fn read_fault(error: &Error) -> Fault {
    match error.kind() {
        ErrorKind::OutOfMemory => Fault::NoMemory,
        _ => Fault::Read,
    }
}

// Whether the file with the path is there, with exactly the bytes. `OtherPage` where it has others.
fn is_there<R: AllocGlobal + Files>(
    rt: &R,
    path: &str,
    named: &Named,
    bytes: &[u8],
) -> Result<bool, Fault> {
    match fs::read(rt, path) {
        Ok(there) if there.as_slice() == bytes => Ok(true),
        Ok(_) => Err(Fault::OtherPage(named.date, named.account)),
        Err(error) if error.kind() == ErrorKind::NotFound => Ok(false),
        Err(error) => Err(read_fault(&error)),
    }
}

// Writes a file, and waits until the disk has it.
fn write_file<R: Files<File = File>>(rt: &R, path: &str, bytes: &[u8]) -> Result<(), Error> {
    let mut file = fs::create(rt, path)?;
    file.write_all(bytes)?;
    file.sync_all()
}

// Writes a file beside its place, and then names it. Where that fails nothing is left of it.
fn write_whole<R: Files<File = File>>(
    rt: &R,
    part: &str,
    path: &str,
    bytes: &[u8],
) -> Result<(), Fault> {
    if write_file(rt, part, bytes).is_ok() && fs::rename(rt, part, path).is_ok() {
        return Ok(());
    }
    let _ = fs::remove_file(rt, part);
    Err(Fault::Write)
}

/// Checks that a folder is there.
pub(crate) fn check_folder<R: Files>(rt: &R, folder: &str) -> Result<(), Fault> {
    match fs::metadata(rt, folder) {
        Ok(found) if found.is_dir() => Ok(()),
        _ => Err(Fault::NoSuchFolder),
    }
}

/// Where pages are kept, each under its name.
pub(crate) trait Keeps {
    ghost use Rattle.std.specs.Prelude.{Option};
    ghost use Rattle.cns_page.specs.Files.{KeptPages};

    /// The pages that were kept, in order, where that is known.
    ghost kept: { Self → Option KeptPages };

    /// Keeps a page, whole or not at all.
    fn keep(&mut self, named: &Named, page: &[u8]) -> Result<(), Fault>
        ensures { OnOk result (kept self.new ≡ and_kept (kept self.old) named.now page.now) };
}

/// A folder of files. Contracts don't see them.
#[derive(Drop)]
pub(crate) struct Folder<'a, R> {
    pub(crate) rt: &'a R,
    pub(crate) path: &'a str,
}

impl<'a, R: AllocGlobal + Files<File = File>> Keeps for Folder<'a, R> {
    ghost use Rattle.std.specs.Prelude.{None};

    ghost kept = { λ f. None };

    // A file that is there stays as it is: `OtherPage` where it has other bytes than the page.
    fn keep(&mut self, named: &Named, page: &[u8]) -> Result<(), Fault> {
        let alloc = self.rt.alloc();
        let path = path_of(alloc, self.path, named, PAGE)?;
        if is_there(self.rt, path.as_str(), named, page)? {
            return Ok(());
        }
        let part = path_of(alloc, self.path, named, PART)?;
        write_whole(self.rt, part.as_str(), path.as_str(), page)
    }
}
