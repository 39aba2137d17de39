// The commands by their names.
ghost use Rattle.std.specs.Prelude.{◌≡◌, map};
ghost use Rattle.std.specs.Str.{str_eq_ignore_ascii_case};
ghost use Rattle.console_session.specs.Verbs.{named, verb_among, verb_of};

/// A command.
#[derive(Clone, Copy, Debug, PartialEq, Eq)]
pub enum Verb {
    File,
    Echo,
    Exec,
    Wait,
    Quit,
    Reserve,
    Video,
    Level,
    Report,
    Alias,
    Path,
    Flush,
    Sound,
    Model,
    Info,
    Dump,
    Wad,
    Pic,
    Map,
    Vis,
}

// Each command with its name. Those that scripts give most stand first, so that they are found soon.
static VERBS: [(&[u8], Verb); 20] = [
    (b"sound", Verb::Sound),
    (b"model", Verb::Model),
    (b"map", Verb::Map),
    (b"exec", Verb::Exec),
    (b"echo", Verb::Echo),
    (b"wait", Verb::Wait),
    (b"alias", Verb::Alias),
    (b"file", Verb::File),
    (b"info", Verb::Info),
    (b"report", Verb::Report),
    (b"reserve", Verb::Reserve),
    (b"video", Verb::Video),
    (b"level", Verb::Level),
    (b"path", Verb::Path),
    (b"flush", Verb::Flush),
    (b"wad", Verb::Wad),
    (b"pic", Verb::Pic),
    (b"vis", Verb::Vis),
    (b"dump", Verb::Dump),
    (b"quit", Verb::Quit),
];

// Whether the two are the same but for the case of their letters.
fn is_same(word: &[u8], name: &[u8]) -> bool
    ensures { result ≡ str_eq_ignore_ascii_case word.now name.now }
{
    word.len() == name.len() && word.eq_ignore_ascii_case(name)
}

// The first of these that a word names.
fn verb_among(mut verbs: &[(&[u8], Verb)], word: &[u8]) -> Option<Verb>
    ensures { result ≡ verb_among (map (λ n. named n.0.now n.1) verbs.entry.now) word.now }
{
    'verbs: while let [(name, verb), rest @ ..] = verbs {
        if is_same(word, name) {
            return Some(*verb);
        }
        verbs = rest;
    }
    None
}

/// The command that a word names, in any case.
pub fn find_verb(word: &[u8]) -> Option<Verb>
    ensures { result ≡ verb_of word.now }
{
    verb_among(&VERBS, word)
}
