//! The form of each line, for the error of a line that has another one.

/// The first word of each line, and the line's form.
const FORMS: [(&str, &str); 25] = [
    ("settings", "settings KEY=VALUE .., before all other lines"),
    (
        "append",
        "append group=N index=N entries=BYTES,.., below the last index",
    ),
    (
        "put",
        "put group=N key=BYTES value=BYTES, with no key of the log's own",
    ),
    (
        "delete",
        "delete group=N key=BYTES, with no key of the log's own",
    ),
    ("clean", "clean group=N"),
    ("compact", "compact group=N index=N"),
    ("write", "write [sync]"),
    ("open", "open workers=N, at least one"),
    ("close", "close"),
    ("fork", "fork target=NAME, in one word"),
    ("sync", "sync"),
    ("get", "get group=N key=BYTES"),
    ("entry", "entry group=N index=N"),
    ("first-index", "first-index group=N"),
    ("last-index", "last-index group=N"),
    ("fetch", "fetch group=N from=N below=N [size=N]"),
    ("scan", "scan group=N [from=BYTES] [below=BYTES]"),
    ("compact-to", "compact-to group=N index=N"),
    ("purge", "purge"),
    ("purge-stale", "purge-stale"),
    ("rewrite-append", "rewrite-append [watermark=N] [exit=N]"),
    ("rewrite-rewrite", "rewrite-rewrite"),
    (
        "crash",
        "crash keep=synced, all, none, first changes=N [bytes=N], or a list of keep, lose and BYTES",
    ),
    ("refuse", "refuse call=N [part=N]"),
    ("stop", "stop call=N [after]"),
];

/// Returns the form of a line with this first word; `None` if no line has it.
pub fn form_of(word: &str) -> Option<&'static str> {
    for (name, form) in FORMS {
        if name == word {
            return Some(form);
        }
    }
    None
}
