//! Texts about the program: its help and its version.
ghost use Rattle.std.specs.Prelude.{◌≡◌};
ghost use Rattle.wat_tokens_args.specs.Help.{help, version};

/// Returns the help text: the commands, their options, the exit statuses and examples.
pub fn help() -> &'static str
    ensures { result.now ≡ help }
{
    HELP
}

/// Returns the version of the program, and the version of the crate `wast` that it reimplements.
pub fn version() -> &'static str
    ensures { result.now ≡ version }
{
    "wat_tokens 0.1.0, of wast 263.0.0\n"
}

const HELP: &str = "\
wat_tokens: the tokens of WebAssembly text

usage: wat_tokens [OPTION..] [COMMAND] [FILE..]

It reads FILE, or standard input if there is none or FILE is `-`, and writes standard output.

commands; without one it is `list`:
  list         the raw tokens, a line each: first byte, end, kind
  sig NAME..   the significant tokens: no whitespace, no comments, and no annotations
               `(@name ..)` except those of the names
  play CALL..  the replies of a parser to calls, a line each
  blank        the text with spaces over its comments
  types        the bytes of the module, if all its fields are function types
  module       the bytes of the module, of all fields of WebAssembly 2.0
  fmt          the formatted text; with `--check` the names of the files that are not formatted,
               with `--diff` the lines that differ, with `--write` nothing: these files are
               rewritten; a folder is the `.wat` and `.wast` files below it
  help         this text

`list`, `sig` and `fmt` take any number of files, the others one. Of several files each plain
list follows a line `==> FILE <==`. All words after `sig` and `play` are names and calls: their
files are options. Without a command the first FILE is `-`, or has a `.` or a `/` in it, or is
there. After `--` a FILE may begin with a dash.

options, before the command or, except with `sig` and `play`, anywhere after it:
  --allow-confusing     accept characters that can make a text look other than it is
  --strict-underscores  reject doubled underscores in `\\u{..}`
  --json                write each token of `list` or `sig` as a line of JSON: offset and length
                        in bytes, kind, text, line and column; and an error as the last line
  --file NAME           read this file; may be given more than once
  -o, --output FILE     write the bytes of `types` or `module` to FILE, if the text compiles; `-` is
                        standard output, also if that is a terminal
  --no-names            write `module` without name section and custom sections
  --no-validate         write `module` also if it is not valid
  -h, --help            this text; first, or after `list`, `blank`, `types`, `module` or `fmt`
  -V, --version         the version, as first word

calls of a parser:
  look        peek at the next token
  take        return the next token, and advance past it
  comment     return the comment that comes next, and advance past it
  reg=NAME    make the annotations of a name visible from here on
  unreg=NAME  hide them again
  parens=N    parse a group in parentheses with up to N tokens in it

exit status: 0 if all is written, 1 if a text has a lexical or syntax error, is not valid or is
not formatted, 2 otherwise.

examples:
  wat_tokens a.wat
  wat_tokens a.wat b.wat --json
  wat_tokens --file a.wat --file b.wat sig name
  wat_tokens module a.wat -o a.wasm
  wat_tokens fmt --write a.wat b.wat
  printf '(@a x) (func)' | wat_tokens play look reg=a take
";
