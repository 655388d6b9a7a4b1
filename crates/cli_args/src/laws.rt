//! Worked examples: the orders of some command lines, computed from the definitions. They are
//! stated in `specs/WorkedLines.antt`.
ghost use Rattle.cli_args.specs.WorkedLines.{WorkedConnections, WorkedConversions, WorkedDefaults};
ghost use Rattle.cli_args.specs.WorkedLines.{WorkedCards};
ghost use Rattle.cli_args.specs.WorkedLines.{WorkedFaults, WorkedFiles, WorkedForms, WorkedHolds};
ghost use Rattle.cli_args.specs.WorkedLines.{WorkedLimits};
ghost use Rattle.cli_args.specs.WorkedLines.{WorkedCopies, WorkedLogs};
ghost use Rattle.cli_args.specs.WorkedLines.{WorkedNumbers, WorkedOrders, WorkedPages};
ghost use Rattle.cli_args.specs.WorkedLines.{WorkedPorts, WorkedResyncs, WorkedRuns, WorkedServes};
ghost use Rattle.cli_args.specs.WorkedLines.{WorkedSockets, WorkedVersions};

/// Some command lines and their orders, or none.
/// - `orders`: no argument, `try`, `init`, `book`, `import`, `tally`, `expand` and `migrate`.
/// - `files`: `check`, `books` and `verify`, each with one file and no more.
/// - `conversions`: `convert` with and without its options; 10,000 rows and 8,388,608 octets are
///   accepted, and not one more or none.
/// - `versions`: `--version` and `-V`, also before another order; not after one, nor with a value,
///   nor as the name of an order.
/// - `defaults`: `serve`, `export` and `mirror` without options.
/// - `ports`: 8 and 65535 are ports; 65536 is none.
/// - `connections`: 1000000 is accepted; 1000001 and 0 are not.
/// - `serves`: `serve` with both of its options; not with those of `run`.
/// - `runs`: `run` without options and with all of them, `--host` twice and with an address; not with
///   a number of connections, nor with a host that has a port or is empty.
/// - `sockets`: `run` with a socket; not with a socket and a port, even if it is the default, nor
///   with two sockets or an empty path; `serve` has none.
/// - `limits`: of `run`; 1 and 1000 open connections are accepted, 0 and 1001 are not; 1 and 3600
///   seconds are accepted, 0 and 3601 are not.
/// - `holds`: of `run`; 16 and 1024 MiB are accepted, 15 and 1025 are not; `serve` has no such
///   option.
/// - `logs`: with `--log`, `run` prints a line for each request; given twice, with a value or after
///   another order it is invalid.
/// - `forms`: `columns` is a form; `rows` is none.
/// - `cards`: `export` with `--vcf`, alone and with 3.0 or 4.0; not with another version, nor with a
///   form; and not with a version alone.
/// - `numbers`: `forget` accepts 999999999999999, and not one more.
/// - `pages`: `mirror` accepts a limit of 0 with 1000000 pages; not 1000001 or 0 pages, nor a limit
///   of 1000000000000000.
/// - `copies`: `copy` with a file and the name of its copy, and not without that; with two books to
///   leave out, and not with an option that names none; `restore` with a copy and a file, without an
///   option and with 2 numbers to skip, and not without a file.
/// - `resyncs`: `resync` without an option skips 1000000 numbers, which are 500000 pairs; 2 and
///   1000000000 are accepted, and 3, 0 and 1000000002 are not.
/// - `faults`: `tally` without a book or with a further argument, `more`, `help` and `--help` have
///   no order.
pub fn worked_lines_are_orders()
    ensures orders { WorkedOrders }
    ensures files { WorkedFiles }
    ensures conversions { WorkedConversions }
    ensures versions { WorkedVersions }
    ensures defaults { WorkedDefaults }
    ensures ports { WorkedPorts }
    ensures connections { WorkedConnections }
    ensures serves { WorkedServes }
    ensures runs { WorkedRuns }
    ensures sockets { WorkedSockets }
    ensures limits { WorkedLimits }
    ensures holds { WorkedHolds }
    ensures logs { WorkedLogs }
    ensures forms { WorkedForms }
    ensures cards { WorkedCards }
    ensures numbers { WorkedNumbers }
    ensures pages { WorkedPages }
    ensures copies { WorkedCopies }
    ensures resyncs { WorkedResyncs }
    ensures faults { WorkedFaults }
{}
