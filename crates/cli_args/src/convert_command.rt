//! The command line of `convert`.
ghost use Rattle.std.specs.Prelude.{IfOk, codes};
ghost use Rattle.cli_args.specs.Subcommands as lines;
ghost use Rattle.cli_args.specs.Subcommands.{IsArgument, IsOrderCommand};

use crate::arguments::{free_number_option, free_option, repeated_argument, switch};
use crate::subcommands::order_command;
use clap::{Arg, Command};
use std::alloc::{AllocError, Global};

fn source_arg<'a>(alloc: Global) -> Arg<'a>
    ensures { IsArgument (lines.repeated_argument (codes "FILE")) result }
{
    repeated_argument(
        alloc,
        "FILE",
        "vCards of version 2.1, 3.0 or 4.0, a spreadsheet of contacts as CSV, or rows of `export`; \
         several files become one output",
    )
}

fn folder_option<'a>(alloc: Global) -> Arg<'a>
    ensures { IsArgument (lines.free_option (codes "DIR") (codes "to")) result }
{
    free_option(
        alloc,
        "DIR",
        "to",
        "Existing folder to write files to: one `.vcf` file per card, or the CSV files of --rows \
         and --octets",
    )
}

fn rows_option<'a>(alloc: Global) -> Arg<'a>
    ensures { IsArgument (lines.free_number_option (codes "ROWS") (codes "rows") 1 10000) result }
{
    free_number_option(
        alloc,
        "ROWS",
        "rows",
        1,
        10_000,
        "Write several CSV files, each with at most this number of rows, 1 to 10000",
    )
}

fn octets_option<'a>(alloc: Global) -> Arg<'a>
    ensures { IsArgument
        (lines.free_number_option (codes "OCTETS") (codes "octets") 1 8388608) result }
{
    free_number_option(
        alloc,
        "OCTETS",
        "octets",
        1,
        8_388_608,
        "Write several CSV files, each of at most this number of octets, 1 to 8388608",
    )
}

fn day_first_switch<'a>(alloc: Global) -> Arg<'a>
    ensures { IsArgument (lines.switch (codes "day-first") (codes "day-first")) result }
{
    switch(
        alloc,
        "day-first",
        "day-first",
        "Dates such as 05/04/1980 have the day first",
    )
}

fn month_first_switch<'a>(alloc: Global) -> Arg<'a>
    ensures { IsArgument (lines.switch (codes "month-first") (codes "month-first")) result }
{
    switch(
        alloc,
        "month-first",
        "month-first",
        "Dates such as 05/04/1980 have the month first",
    )
}

fn columns_option<'a>(alloc: Global) -> Arg<'a>
    ensures { IsArgument (lines.free_option (codes "COLUMNS") (codes "columns")) result }
{
    free_option(
        alloc,
        "COLUMNS",
        "columns",
        "What columns of a spreadsheet become, as 'Name=fn,Mail=email;type=work,#3=-': a column's \
         name, or # and its number, and one of fn, n.family, n.given, n.additional, n.prefix, \
         n.suffix, nickname, org, org.unit, title, role, email, tel, adr, adr.street, adr.city, \
         adr.region, adr.code, adr.country, adr.box, adr.extended, url, bday, anniversary, note, \
         categories, uid, gender, lang, impp, or - to leave it out. If all are numbers, the first \
         row is a person, unless it is a header that is known, or the entry `header` is among them. \
         With the entry `rows`, or `rows=comma;cells=2` for the form of the rows, it is a person in \
         any case",
    )
}

fn charset_option<'a>(alloc: Global) -> Arg<'a>
    ensures { IsArgument (lines.free_option (codes "CHARSET") (codes "charset")) result }
{
    free_option(
        alloc,
        "CHARSET",
        "charset",
        "Character set of the file: UTF-8, UTF-16, ISO-8859-1 to -16, windows-1250 to -1258 or \
         -874, KOI8-R or KOI8-U",
    )
}

fn report_option<'a>(alloc: Global) -> Arg<'a>
    ensures { IsArgument (lines.free_option (codes "REPORT") (codes "report")) result }
{
    free_option(
        alloc,
        "REPORT",
        "report",
        "New file for all lines of the report, one for each line of a card that was changed",
    )
}

fn photos_option<'a>(alloc: Global) -> Arg<'a>
    ensures { IsArgument (lines.free_option (codes "PHOTOS") (codes "photos")) result }
{
    free_option(
        alloc,
        "PHOTOS",
        "photos",
        "Existing folder for the photos, logos and sounds of cards that have more than 262144 \
         octets with them, which are carried without them",
    )
}

pub(crate) fn convert_command<'a>(alloc: Global) -> Result<Command<'a>, AllocError>
    ensures { IfOk result (IsOrderCommand lines.convert_command) }
{
    order_command(
        alloc,
        "convert",
        "Convert cards and contacts of other programs to vCard 4.0, as CSV for `import`",
        "Example:\n  contacts convert phone.vcf > people.csv\n\nNeeds no store file. Standard \
         error gets a line for each card whose content changed or that can't be carried over, how \
         often each other change came, and the numbers of cards. The status is 1 if a card wasn't \
         carried over, or a file for --photos wasn't written. With --rows or --octets the files \
         are named after the first FILE, `phone-1.csv`, `phone-2.csv` and so on, beside it or in \
         the folder. No file is overwritten, and nothing is written before each FILE is known to \
         be one that is converted.",
        Vec::from_array(
            alloc,
            [
                source_arg(alloc),
                folder_option(alloc),
                rows_option(alloc),
                octets_option(alloc),
                day_first_switch(alloc),
                month_first_switch(alloc),
                columns_option(alloc),
                charset_option(alloc),
                report_option(alloc),
                photos_option(alloc),
            ],
        )?,
    )
}
