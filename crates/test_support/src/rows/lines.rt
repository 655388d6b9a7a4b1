//! Rows, and the report of those whose result isn't the expected one.
use crate::calls::run_call;
use crate::printout::Printout;
use crate::rows::fields::{decode_field, print_field};
use std::alloc::Global;

/// Reports the result of a call if it isn't the expected one.
fn report_row(
    call: &str,
    input: &Printout,
    expected: &Printout,
    actual: &Printout,
    report: &mut Printout,
) {
    if actual.as_slice() != expected.as_slice() {
        report.add_all(&["** ", call, " "]);
        print_field(input.as_slice(), report);
        report.add(": ");
        print_field(actual.as_slice(), report);
        report.add("\n");
    }
    report.supply.note(input.result());
    report.supply.note(expected.result());
    report.supply.note(actual.result());
}

/// Makes the row's call, and reports its result if it isn't the expected one.
fn run_row(call: &str, input: &str, expected: &str, report: &mut Printout) {
    let alloc = report.alloc();
    let mut given = Printout::new(alloc);
    let mut wanted = Printout::new(alloc);
    let mut actual = Printout::new(alloc);
    decode_field(input, &mut given);
    decode_field(expected, &mut wanted);
    run_call(call, given.as_slice(), &mut actual);
    report_row(call, &given, &wanted, &actual, report);
}

/// Runs the row of the line: a call, its input and its expected result.
fn run_line(line: &str, report: &mut Printout) {
    let (call, fields) = line.split_once('\t').unwrap_or((line, ""));
    let (input, expected) = fields.split_once('\t').unwrap_or((fields, ""));
    run_row(call, input, expected, report);
}

/// Runs the rows of the list. Reports those whose result isn't the expected one, and then the
/// number of rows.
pub fn check_rows(alloc: Global, list: &str) -> Printout {
    let mut report = Printout::new(alloc);
    let mut count: u64 = 0;
    for line in list.lines() {
        if !line.is_empty() && !line.starts_with('#') {
            run_line(line, &mut report);
            count = count.saturating_add(1);
        }
    }
    report.add_number(count);
    report.add(" rows\n");
    report
}
