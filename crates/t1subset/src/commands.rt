//! The commands of the program, and their help.
use clap::error::ErrorKind;
use clap::{Arg, ArgAction, ArgMatches, Command, Error, value_parser};
use std::alloc::{AllocError, Global};
use t1_cmd::read_codes;

/// What may stand behind a command: an argument or an option, with its help.
#[derive(Clone, Copy)]
enum Word {
    /// An argument that has to be given.
    One(&'static str, &'static str),
    /// Inputs, one or more.
    Inputs(&'static str),
    /// Names of glyphs, or none.
    Names(&'static str),
    /// An option without a value.
    Flag(&'static str, &'static str),
    /// An option with a value, whose name stands between.
    Value(&'static str, &'static str, &'static str),
    /// The same, where the value may begin with `-`.
    AnyValue(&'static str, &'static str, &'static str),
    /// An option with a number.
    Number(&'static str, &'static str, &'static str),
}

const IN: Word = Word::One("IN", "The font");

const OUT: Word = Word::One("OUT", "The file that is written");

const SEVERAL: Word = Word::Inputs("The fonts");

const DOCUMENTS: Word = Word::Inputs("The documents");

/// The option that writes a PFB.
const AS_PFB: Word = Word::Flag("pfb", "Writes a PFB");

/// The option that limits what glyphs' runs execute.
const TOKENS: Word = Word::Number(
    "tokens",
    "N",
    "Refuses if the glyphs' charstrings execute more than N tokens",
);

/// A command: its name, what it does, its help, and what may stand behind it.
struct Row {
    name: &'static str,
    about: &'static str,
    help: &'static str,
    words: &'static [Word],
}

const JOIN_HELP: &str = "\
A listing has a line `S INDEX HEX` for each Subr and a line `G NAME HEX` for
each glyph. The joined listing has the lines of both, Subrs by index and then
glyphs by name. Two listings that give one Subr or one glyph different bytes
are refused.

Example: t1subset join one.listing two.listing > both.listing";

const SUBSET_HELP: &str = "\
Cuts the font to the glyphs of these names, `.notdef`, the components of
accented glyphs, and the Subrs that all of these execute, and writes it to OUT
as PFA, or with --pfb as PFB. Each glyph draws as in IN. A Subr that no kept
glyph executes is replaced by the single command `return`; Subrs 0 to 3 are
always kept. So subsets of one font can be merged again. Without a NAME it
keeps only `.notdef`. Put `--` before a NAME that begins with `-`. A NAME may
be given more than once. With --names the names of a file are kept too, a name
a line; there may be as many as a font has glyphs. With --codes and --text the
names are kept, too, that codes have in the font's Encoding; a code that has
none is refused. OUT is opened only when the result is complete.

Examples: t1subset subset font.pfb some.pfa A B Aacute
          t1subset subset --codes 65-90,97 --text 'Hello!' font.pfb some.pfa";

const NAMES_HELP: &str = "A file of more names, a name a line; `-` is standard input";

const CODES_HELP: &str = "Codes of the font's Encoding from 0 to 255, as 65-90,97";

const TEXT_HELP: &str = "A text each of whose bytes is a code of the font's Encoding";

const MERGE_HELP: &str = "\
OUT comes first: `t1subset merge a.pfa b.pfa` overwrites a.pfa.

Merges the fonts and writes the result to OUT as PFA, or with --pfb as PFB.
Subsets of one font, in any order, give byte for byte the subset of all their
names. Fonts that don't merge are refused with the lowest conflict. A Subr that
is `return`, and that no glyph of its font executes, gives way to the other
font's. Subsets that other programs cut mostly need `rejoin`. OUT is opened
only when the result is complete.

Example: t1subset merge all.pfa one.pfa two.pfa";

const REJOIN_HELP: &str = "\
OUT comes first: `t1subset rejoin a.pfa b.pfa` overwrites a.pfa.

Merges subsets that other programs cut, such as dvips and pdfTeX. These write
white space in their own ways, may put a tag of six capitals and `+` before the
name of the font, and declare no Subrs after the last one that is used. So
`rejoin` first normalizes the fonts: it takes each as `mend` does, squeezes
white space, removes lines of UniqueID and XUID and the tags, gives all one
FontBBox, declares as many Subrs in each table as in the largest, and adds a
Subr `return` where one font lacks a Subr that another has; if a glyph of that
font executes it, the font is refused. Each glyph draws as it did, or has the
fault that it had. Then it merges them as `merge` does, and refuses what still
differs. OUT is a PFA, or with --pfb a PFB, and is opened only when the
result is complete.

Example: t1subset rejoin all.pfa one.pfa two.pfa";

const POOL_HELP: &str = "\
OUT comes first: `t1subset pool a.ps b.ps` overwrites a.ps.

Writes PostScript documents one behind the other to OUT, with each font once.
A font stands between a line %%BeginFont, %%BeginResource or %%BeginProcSet and
the line that ends it; its cipher is hexadecimal. Fonts that have one name are
rejoined, and keep it. Where a name has several places, its font stands before
the first document, under the name /pool:NAME, and each place has the line
`/NAME /pool:NAME findfont definefont pop` in place of its font. Nothing else
changes. The fonts of a name that don't rejoin, or don't fit there, stay as they
are, and a line on standard error tells why. OUT is opened only when the result
is complete.

With --tags, names that are equal without their tags, six capitals and `+`, then
have one font, too: /pool:NAME, without the tags.

With --dsc, OUT is one document, so that print spoolers and programs that select
pages see all of them: one header with the number of pages, one setup with the
fonts, and all pages under new numbers, each behind the prolog and the setup of
its own document and between save and restore. A document without %%Page
comments becomes one page, and a line on standard error says so.

Examples: t1subset pool all.ps one.ps two.ps
          t1subset pool --tags --dsc all.ps one.ps two.ps";

const TAGS_HELP: &str = "Gives names that are equal without their tags one font";

const DSC_HELP: &str = "Makes one document of all, with all their pages";

const LEVEL_HELP: &str = "\
Writes each PostScript document into FOLDER, under its own last name, so that
a program that joins documents, and keeps one font of each name, loses no
glyph. The fonts of a name, in all documents, are rejoined as by `pool`, and
each place of the name gets the font that they rejoin to. Nothing else changes:
each document still has all of its fonts. The fonts of a name that don't rejoin
stay as they are, and a line on standard error tells why. FOLDER has to be
there. Two documents of one name, or one that stands in FOLDER, are refused
before anything is written.

Example: mkdir out && t1subset level out one.ps two.ps";

const FONTS_HELP: &str = "\
Prints a line for each place of a font in PostScript documents, as
`one.ps: 2210 CMR10 17 0 joined`: the document, the offset of the font there,
its name, how many glyphs it has, how many embedded documents are open around
it, and what `level` makes of the fonts of its name, `joined` or `kept: REASON`.
The last line counts the places, the names, and the names that are kept.

With --extract it writes the first font of this name to OUT, which comes before
the documents, as `mend` writes it. OUT is opened only when the result is
complete.

Examples: t1subset fonts one.ps two.ps
          t1subset fonts --extract CMR10 cmr10.pfa one.ps two.ps";

const EXTRACT_HELP: &str = "Writes the first font of this name to OUT, which comes first";

const DIFF_HELP: &str = "\
Tells why two fonts don't merge: a line for each conflict, the lowest first, as
`merge` tells the lowest. First each part of the texts around the tables that
differs, then each code, each glyph, each component that one font lacks and the
other has, behind its first caller, and each Subr, before its first user. `over
a limit` is told only where nothing else is. It prints nothing, and ends with
status 0, exactly if the fonts merge; with a conflict the status is 1.

Example: t1subset diff one.pfa two.pfa";

const PFA_HELP: &str = "\
IN is a Type 1 font as PFA, PFB or with a raw binary cipher. OUT becomes its
one canonical file in this form: the texts around the tables unchanged, the
tables in a fixed layout with Subrs by index and glyphs by name, lead bytes
zero, and a standard trailer. OUT is opened only when the result is complete.

Example: t1subset pfa font.pfb font.pfa";

const PFB_HELP: &str = "\
IN is a Type 1 font as PFA, PFB or with a raw binary cipher. OUT becomes its
one canonical file in this form: the texts around the tables unchanged, the
tables in a fixed layout with Subrs by index and glyphs by name, lead bytes
zero, and a standard trailer. OUT is opened only when the result is complete.

Example: t1subset pfb font.pfa font.pfb";

const MEND_HELP: &str = "\
Writes to OUT, as PFA or with --pfb as PFB, the canonical file of a font that
other programs spell. Beside what the other commands read it takes comments in
the Encoding and among the Subrs, codes whose names are copied from others, and
`readonly` behind a word that is the whole Encoding. If the font begins with a
test whether FontDirectory has it, the test is taken out: with it, what is
written leaves an operand on PostScript's stack. Each glyph draws as in IN. OUT
is opened only when the result is complete. What was mended is told on standard
error, a line each with its place, as `comment in Encoding at 195`.

Example: t1subset mend font.pfb font.pfa";

const CHECK_HELP: &str = "\
Prints `ok G glyphs, S subrs, weight W`, where S counts the Subrs that are
present, and W is the weight, which is limited. It adds up the lengths of the
texts around the tables; for each Subr 128, its lead bytes and its length,
which counts as at least 1; and for each glyph 256, its lead bytes and its
length. A font that doesn't parse is refused with its first fault. Of several
fonts each line begins with the path, and the exit status is the worst.

Example: t1subset check font.pfb";

const LIST_HELP: &str = "\
Prints `encoding WORD`, or a line `code C NAME` for each code; then `subr I
LENGTH` for each Subr that is present; then `glyph NAME LENGTH` for each glyph
by the bytes of its name. Lengths are those of the plain charstrings. A byte
outside 33 to 126, and the backslash, is printed as `\\x` and two digits. With
--full then `name NAME`, `matrix NUMBERS`, `box NUMBERS` and `unique NUMBER` as
the font spells them, those that it has; and for each glyph `width NAME WX WY`
in charstring units, or `width NAME fault X` if it can't be drawn.

Example: t1subset list font.pfb";

const FULL_HELP: &str = "Prints the font's name, matrix, box and number, and widths, too";

const SHOW_HELP: &str = "\
Prints `width WX WY`, `bearing SBX SBY`, and for each part `part DX DY` and a
line for each of its marks, or the one line `fault NAME`. Numbers are
charstring units; one that is not whole is printed as its count of 1/65536
unit followed by `/65536`. Put `--` before a NAME that begins with `-`.

Example: t1subset show font.pfb Aacute";

const PROGRAM_HELP: &str = "\
Exit status: 0 for success; 1 for a refusal, with the reason on standard error,
and for fonts that differ; 2 for a wrong command line; 3 if a file can't be
opened, read or written.

Example: t1subset subset font.pfb some.pfa A B Aacute";

const EXPLAIN_HELP: &str = "Says behind a refusal which file is meant, and what to do";

const SUBSET: Row = Row {
    name: "subset",
    about: "Cuts a font to some of its glyphs",
    help: SUBSET_HELP,
    words: &[
        IN,
        OUT,
        Word::Names("The names of the glyphs to keep, without their `/`"),
        Word::Value("names", "FILE", NAMES_HELP),
        Word::Value("codes", "LIST", CODES_HELP),
        Word::AnyValue("text", "STRING", TEXT_HELP),
        TOKENS,
        AS_PFB,
    ],
};

const MERGE: Row = Row {
    name: "merge",
    about: "Merges subsets of a font into one font",
    help: MERGE_HELP,
    words: &[OUT, SEVERAL, TOKENS, AS_PFB],
};

const REJOIN: Row = Row {
    name: "rejoin",
    about: "Merges subsets of a font that other programs cut",
    help: REJOIN_HELP,
    words: &[OUT, SEVERAL, TOKENS, AS_PFB],
};

const POOL: Row = Row {
    name: "pool",
    about: "Writes documents one behind the other with each font once",
    help: POOL_HELP,
    words: &[
        OUT,
        DOCUMENTS,
        Word::Flag("tags", TAGS_HELP),
        Word::Flag("dsc", DSC_HELP),
    ],
};

const LEVEL: Row = Row {
    name: "level",
    about: "Writes documents again with one font for each name",
    help: LEVEL_HELP,
    words: &[
        Word::One("FOLDER", "The folder that they are written to"),
        DOCUMENTS,
    ],
};

const FONTS: Row = Row {
    name: "fonts",
    about: "Lists the fonts of documents, or takes one out",
    help: FONTS_HELP,
    words: &[DOCUMENTS, Word::AnyValue("extract", "NAME", EXTRACT_HELP)],
};

const DIFF: Row = Row {
    name: "diff",
    about: "Prints all conflicts of two fonts",
    help: DIFF_HELP,
    words: &[
        Word::One("A", "The first font"),
        Word::One("B", "The second font"),
        TOKENS,
    ],
};

const MEND: Row = Row {
    name: "mend",
    about: "Writes what other programs spell as a canonical file",
    help: MEND_HELP,
    words: &[IN, OUT, AS_PFB],
};

const CHECK: Row = Row {
    name: "check",
    about: "Checks that fonts can be read",
    help: CHECK_HELP,
    words: &[SEVERAL],
};

const LIST: Row = Row {
    name: "list",
    about: "Lists a font's codes, Subrs and glyphs",
    help: LIST_HELP,
    words: &[IN, Word::Flag("full", FULL_HELP)],
};

const SHOW: Row = Row {
    name: "show",
    about: "Shows what a glyph draws",
    help: SHOW_HELP,
    words: &[IN, Word::One("NAME", "The glyph's name, without its `/`")],
};

const PFA: Row = Row {
    name: "pfa",
    about: "Writes a font's canonical file as PFA, text and hexadecimal",
    help: PFA_HELP,
    words: &[IN, OUT],
};

const PFB: Row = Row {
    name: "pfb",
    about: "Writes a font's canonical file as PFB, in binary segments",
    help: PFB_HELP,
    words: &[IN, OUT],
};

const JOIN: Row = Row {
    name: "join",
    about: "Prints the join of two listings of Subrs and glyphs",
    help: JOIN_HELP,
    words: &[
        Word::One("A", "The first listing"),
        Word::One("B", "The second listing"),
    ],
};

/// An option of this name with a value.
fn option<'a>(alloc: Global, (name, value, help): (&'a str, &'a str, &'a str)) -> Arg<'a> {
    Arg::new(alloc, name)
        .long(name)
        .value_name(value)
        .action(ArgAction::Set)
        .help(help)
}

/// An option of this name without a value.
fn flag<'a>(alloc: Global, name: &'a str, help: &'a str) -> Arg<'a> {
    Arg::new(alloc, name)
        .long(name)
        .action(ArgAction::SetTrue)
        .help(help)
}

/// A word as clap has it.
fn arg_of<'a>(alloc: Global, word: Word) -> Arg<'a> {
    match word {
        Word::One(name, help) => Arg::new(alloc, name)
            .required(true)
            .action(ArgAction::Set)
            .help(help),
        Word::Inputs(help) => Arg::new(alloc, "IN")
            .num_args(1..)
            .required(true)
            .action(ArgAction::Append)
            .help(help),
        Word::Names(help) => Arg::new(alloc, "NAME")
            .num_args(0..)
            .action(ArgAction::Append)
            .help(help),
        Word::Flag(name, help) => flag(alloc, name, help),
        Word::Value(name, value, help) => option(alloc, (name, value, help)),
        Word::AnyValue(name, value, help) => {
            option(alloc, (name, value, help)).allow_hyphen_values(true)
        }
        Word::Number(name, value, help) => {
            option(alloc, (name, value, help)).value_parser(value_parser!(u64))
        }
    }
}

/// A command as clap has it.
fn command_of<'a>(alloc: Global, row: &Row) -> Result<Command<'a>, AllocError> {
    let mut command = Command::new(alloc, row.name)
        .about(row.about)
        .after_help(row.help);
    for word in row.words {
        command = command.arg(arg_of(alloc, *word))?;
    }
    Ok(command)
}

/// Adds a command to those of the program, if there is memory for all of it.
fn with<'a>(
    program: Result<Command<'a>, AllocError>,
    command: Result<Command<'a>, AllocError>,
) -> Result<Command<'a>, AllocError> {
    let program = match program {
        Ok(program) => program,
        Err(error) => {
            drop(command);
            return Err(error);
        }
    };
    match command {
        Ok(command) => program.subcommand(command),
        Err(error) => {
            drop(program);
            Err(error)
        }
    }
}

/// The program without its commands. `--explain` may stand before a command or behind it.
fn bare_program<'a>(alloc: Global) -> Result<Command<'a>, AllocError> {
    Command::new(alloc, "t1subset")
        .version("0.1.0")
        .about("Subsets and merges Type 1 fonts, and checks, lists, shows and rewrites them")
        .after_help(PROGRAM_HELP)
        .subcommand_required(true)
        .arg_required_else_help(true)
        .arg(flag(alloc, "explain", EXPLAIN_HELP).global(true))
}

fn program<'a>(alloc: Global) -> Result<Command<'a>, AllocError> {
    let program = bare_program(alloc);
    let program = with(program, command_of(alloc, &SUBSET));
    let program = with(program, command_of(alloc, &MERGE));
    let program = with(program, command_of(alloc, &REJOIN));
    let program = with(program, command_of(alloc, &POOL));
    let program = with(program, command_of(alloc, &LEVEL));
    let program = with(program, command_of(alloc, &FONTS));
    let program = with(program, command_of(alloc, &DIFF));
    let program = with(program, command_of(alloc, &MEND));
    let program = with(program, command_of(alloc, &CHECK));
    let program = with(program, command_of(alloc, &LIST));
    let program = with(program, command_of(alloc, &SHOW));
    let program = with(program, command_of(alloc, &PFA));
    let program = with(program, command_of(alloc, &PFB));
    with(program, command_of(alloc, &JOIN))
}

/// The list of codes that the words give, if it can't be read.
fn bad_list<'a>(alloc: Global, matches: &ArgMatches<'a>) -> Result<Option<&'a str>, AllocError> {
    let Some(("subset", given)) = matches.subcommand() else {
        return Ok(None);
    };
    let Some(list) = given.get_str("codes") else {
        return Ok(None);
    };
    match read_codes(alloc, list.as_bytes())? {
        Some(_) => Ok(None),
        None => Ok(Some(list)),
    }
}

/// Whether a font is to be taken out, and OUT or a document lacks.
fn lacks_out(matches: &ArgMatches<'_>) -> bool {
    match matches.subcommand() {
        Some(("fonts", given)) => {
            given.get_str("extract").is_some() && given.get_raw("IN").unwrap_or(&[]).len() < 2
        }
        _ => false,
    }
}

/// Why words that parse can't be followed: what clap says of a value, or of a word that lacks.
fn wrong_words<'a>(
    alloc: Global,
    matches: &ArgMatches<'a>,
) -> Result<Option<(ErrorKind, String)>, AllocError> {
    if let Some(list) = bad_list(alloc, matches)? {
        let text = format!(in alloc;
            "invalid value '{list}' for '--codes <LIST>': codes are numbers from 0 to 255 and ranges of them, as 65-90,97"
        )?;
        return Ok(Some((ErrorKind::ValueValidation, text)));
    }
    if lacks_out(matches) {
        let text = format!(in alloc; "--extract <NAME> needs OUT before the documents")?;
        return Ok(Some((ErrorKind::TooFewValues, text)));
    }
    Ok(None)
}

/// What the words ask for, or clap's text if they don't parse.
pub fn parse<'a>(alloc: Global, words: &'a [String]) -> Result<ArgMatches<'a>, Error> {
    let mut program = program(alloc)?;
    let matches = program.try_get_matches_from_mut(words)?;
    match wrong_words(alloc, &matches)? {
        Some((kind, text)) => Err(program.error(kind, text.as_str())?),
        None => Ok(matches),
    }
}
