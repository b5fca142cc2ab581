//! The tables of the standard words. Each word is listed once; its display is generated from it.

ghost use Rattle.std.specs.Prelude.{◌≡◌, false, true, map, slice_index_or};
ghost use Rattle.wat_words.specs.Words.{annotation_word, quoted, standard_word};

/// Passes the standard keywords, in the order of their indices, to the macro `words` or `displays`.
/// A row has 10 keywords; a long row continues on indented lines.
macro_rules! standard {
    ($entries:ident) => {
        $entries! {
            ""
            "after" "alias" "any" "anyref" "arg" "array" "arrayref" "assert_exception"
                "assert_exhaustion" "assert_invalid"
            "assert_invalid_custom" "assert_malformed" "assert_malformed_custom" "assert_return"
                "assert_trap" "assert_unlinkable" "assert_suspension" "before" "binary" "block"
            "borrow" "catch" "catch_ref" "catch_all" "catch_all_ref" "code" "cont" "contref"
                "component" "data"
            "declare" "delegate" "descriptor" "describes" "do" "dtor" "elem" "end" "entry" "exact"
            "tag" "exn" "exnref" "export" "extern" "externref" "eq" "eqref" "f32" "f32x4"
            "f64" "f64x2" "field" "first" "func" "funcref" "get" "global" "i16" "i16x8"
            "i31" "i31ref" "i32" "i32x4" "i64" "i64x2" "i8" "i8x16" "import" "implements"
            "instance" "instantiate" "interface" "invoke" "item" "last" "local" "memory" "module"
                "modulecode"
            "nan:arithmetic" "nan:canonical" "nocont" "nofunc" "noextern" "noexn" "none" "null"
                "nullcontref" "nullfuncref"
            "nullexternref" "nullexnref" "nullref" "offset" "on" "outer" "own" "pagesize" "param"
                "parent"
            "passive" "quote" "else" "if" "loop" "mut" "type" "ref" "ref.func" "ref.null"
            "register" "rec" "acqrel" "rep" "resource" "resource.new" "resource.drop" "resource.rep"
                "result" "seqcst"
            "shared" "start" "sub" "switch" "final" "table" "then" "try" "v128" "value"
            "s8" "s16" "s32" "s64" "u8" "u16" "u32" "u64" "char" "case"
            "record" "string" "bool" "float32" "float64" "variant" "flags" "option" "tuple" "list"
            "map" "error" "canon" "lift" "lower" "enum" "string-encoding=utf8"
                "string-encoding=utf16" "string-encoding=latin1+utf16" "struct"
            "structref" "realloc" "post-return" "with" "core" "core-type" "gc" "true" "false"
                "language"
            "sdk" "processed-by" "mem-info" "needed" "export-info" "import-info" "runtime-path"
                "target-arch" "thread" "thread.spawn-ref"
            "thread.spawn-indirect" "thread.available_parallelism" "backpressure.inc"
                "backpressure.dec" "task.return" "task.cancel" "subtask.drop" "subtask.cancel"
                "stream.new" "stream.read"
            "stream.write" "stream.forward" "stream.cancel-read" "stream.cancel-write"
                "stream.drop-readable" "stream.drop-writable" "future.new" "future.read"
                "future.write" "future.forward"
            "future.cancel-read" "future.cancel-write" "future.drop-readable" "future.drop-writable"
                "error-context.new" "error-context.debug-message" "error-context.drop" "wait"
                "definition" "async"
            "callback" "stream" "future" "error-context" "waitable-set.new" "waitable-set.wait"
                "waitable-set.poll" "waitable-set.drop" "waitable.join" "context.get"
            "context.set" "thread.index" "thread.new-indirect" "thread.resume-later"
                "thread.suspend" "thread.yield" "thread.suspend-then-resume"
                "thread.yield-then-resume" "thread.suspend-then-promote" "thread.yield-then-promote"
            "cancellable" "version-suffix" "external-id"
        }
    };
}

/// Passes the standard annotation names, in the order of their indices, to the macro `words` or
/// `displays`.
macro_rules! annotations {
    ($entries:ident) => {
        $entries! {
            "@"
            "custom" "name" "producers" "dylink.0" "metadata.code.branch_hint"
        }
    };
}

/// Expands to the array of the words. The first literal, the prefix of the displays, is not used.
macro_rules! words {
    ($sign:literal $($word:literal)*) => {
        [$($word),*]
    };
}

/// Expands to the array of the displays: each word in backquotes, after the prefix that is the
/// first literal.
macro_rules! displays {
    ($sign:literal $($word:literal)*) => {
        [$(concat!("`", $sign, $word, "`")),*]
    };
}

const STANDARD: [&str; 233] = standard!(words);

const STANDARD_DISPLAYS: [&str; 233] = standard!(displays);

const ANNOTATIONS: [&str; 5] = annotations!(words);

const ANNOTATION_DISPLAYS: [&str; 5] = annotations!(displays);

/// Returns the standard keyword at an index, or the empty word after the last one.
pub(crate) fn standard(place: usize) -> &'static str
    ensures { result.now ≡ standard_word place }
{
    entry_at(&STANDARD, place, "")
}

/// Returns the display of the standard keyword at an index, or that of the empty word after the
/// last one.
pub(crate) fn standard_display(place: usize) -> &'static str
    ensures { result.now ≡ quoted false (standard_word place) }
{
    entry_at(&STANDARD_DISPLAYS, place, "``")
}

/// Returns the standard annotation name at an index, or the empty word after the last one.
pub(crate) fn annotation(place: usize) -> &'static str
    ensures { result.now ≡ annotation_word place }
{
    entry_at(&ANNOTATIONS, place, "")
}

/// Returns the display of the standard annotation name at an index, or that of the empty word after
/// the last one.
pub(crate) fn annotation_display(place: usize) -> &'static str
    ensures { result.now ≡ quoted true (annotation_word place) }
{
    entry_at(&ANNOTATION_DISPLAYS, place, "`@`")
}

fn entry_at(entries: &[&'static str], place: usize, past: &'static str) -> &'static str
    ensures { result.now ≡ slice_index_or (map (λ e. e.now) entries.now) place past.now }
{
    match entries.get(place) {
        Some(entry) => *entry,
        None => past,
    }
}
