//! Runs the sections of a list, each over new stores.

use crate::commands::stores::{StoreRun, do_in_file, do_in_memory, do_over_tables, is_store_line};
use crate::tables::NewTables;
use std::alloc::Global;
use std::path::PathBuf;
use std::{env, fs, io};
use sync_core::Limits;
use test_support::Printout;

/// The word as a number; 0, which is no legal limit, if it is none.
fn number_of(word: Option<&str>) -> u64 {
    word.unwrap_or_default().parse::<u64>().unwrap_or(0)
}

/// Parses limits: the greatest number of entries of a page, of cards and of changes of a book, of
/// books, and of tombstones of a book.
fn parse_limits(words: &str) -> Option<Limits> {
    let mut words = words.split(' ');
    let (pages, cards) = (number_of(words.next()), number_of(words.next()));
    let (changes, books) = (number_of(words.next()), number_of(words.next()));
    Limits::new(pages, cards, changes, books)?.with_keep(number_of(words.next()))
}

/// Prints the result of a line over another store, if it differs from the first one.
fn print_difference(name: &str, other: &str, first: &str, out: &mut Printout) {
    if other != first {
        out.add_all(&["** another ", name, ": ", other, "\n"]);
    }
}

/// The results of the lines over each store.
#[derive(Drop)]
struct StoreRuns {
    in_memory: StoreRun,
    over_tables: StoreRun,
    in_file: StoreRun,
}

impl StoreRuns {
    /// New runs.
    fn new(alloc: Global) -> StoreRuns {
        StoreRuns {
            in_memory: StoreRun::new(alloc),
            over_tables: StoreRun::new(alloc),
            in_file: StoreRun::new(alloc),
        }
    }

    /// Prints the results over the store in memory, and those over the other stores that differ.
    fn print(&self, lines: &str, out: &mut Printout) {
        let mut in_memory = self.in_memory.output.as_str().lines();
        let mut over_tables = self.over_tables.output.as_str().lines();
        let mut in_file = self.in_file.output.as_str().lines();
        let mut number: u64 = 0;
        for line in lines.lines() {
            if is_store_line(line) {
                number = number.saturating_add(1);
                let first = in_memory.next().unwrap_or("** not done **");
                out.add_number(number);
                out.add_all(&[": ", first, "\n"]);
                let other = over_tables.next().unwrap_or("** not done **");
                print_difference("over tables", other, first, out);
                let other = in_file.next().unwrap_or("** not done **");
                print_difference("in a file", other, first, out);
            } else if line == "again" {
                out.add("-- adopted, and opened\n");
            }
        }
    }

    /// Remembers whether memory ran out in a run.
    fn note_in(&self, out: &mut Printout) {
        out.supply.note(self.in_memory.output.result());
        out.supply.note(self.over_tables.output.result());
        out.supply.note(self.in_file.output.result());
    }
}

/// Runs the lines over new stores, one after another, and prints the results. Lines with limits are
/// skipped. The last store has its file at the path.
fn run_lines<N: NewTables>(
    rt: &HostRuntime,
    tables: &N,
    path: &str,
    limits: Limits,
    lines: &str,
    out: &mut Printout,
) {
    let mut store_runs = StoreRuns::new(out.alloc());
    do_in_memory(limits, lines, &mut store_runs.in_memory);
    let done = do_over_tables(tables, limits, lines, &mut store_runs.over_tables);
    out.supply.note(done);
    let done = do_in_file(rt, path, limits, lines, &mut store_runs.in_file);
    out.supply.note(done);
    store_runs.print(lines, out);
    store_runs.note_in(out);
}

/// The path of the folder of the file.
fn folder_path(rt: &HostRuntime) -> io::Result<PathBuf> {
    Ok(env::temp_dir(rt)?.join(rt.alloc(), "test_stores")?)
}

/// Runs the lines over new stores, with the file in this folder, which is made for them. One that
/// an earlier run left is removed first.
fn run_in_folder<N: NewTables>(
    rt: &HostRuntime,
    tables: &N,
    folder: &PathBuf,
    limits: Limits,
    lines: &str,
    out: &mut Printout,
) {
    let _ = fs::remove_dir_all(rt, folder);
    out.supply.note(fs::create_dir(rt, folder));
    let path = folder.join(rt.alloc(), "books.db");
    if let Some(path) = out.supply.keep(path) {
        run_lines(rt, tables, path.as_str(), limits, lines, out);
    }
    out.supply.note(fs::remove_dir_all(rt, folder));
}

/// Prints the section's title, and runs the lines over stores with the limits of the words.
fn run_limited<N: NewTables>(
    rt: &HostRuntime,
    tables: &N,
    title: &str,
    words: &str,
    lines: &str,
    out: &mut Printout,
) {
    out.add_all(&["==== ", title, "\nlimits ", words, "\n"]);
    let folder = out.supply.keep(folder_path(rt));
    match (parse_limits(words), folder) {
        (Some(limits), Some(folder)) => run_in_folder(rt, tables, &folder, limits, lines, out),
        _ => out.supply.ran_out = true,
    }
}

/// Runs the section, a title and lines, once for each line with limits.
fn run_section<N: NewTables>(rt: &HostRuntime, tables: &N, section: &str, out: &mut Printout) {
    let (title, lines) = section.split_once('\n').unwrap_or((section, ""));
    for line in lines.lines() {
        if let Some(words) = line.strip_prefix("limits ") {
            run_limited(rt, tables, title, words, lines, out);
        }
    }
}

/// The output of the sections of the list.
pub(crate) fn run_sections<N: NewTables>(rt: &HostRuntime, tables: &N, list: &str) -> Printout {
    let mut out = Printout::new(rt.alloc());
    for section in list.split("==== ") {
        run_section(rt, tables, section, &mut out);
    }
    out
}
