// What the images rest on.
ghost use Rattle.sprite_load.specs.Spelled.{ReadIsSpelled, SpelledIsRead, FaultIsFirst, FirstIsFault};

/// A file is read as a sprite exactly where it begins with the sprite's spelling and the sprite passes its tests. A
/// fault is that of the first part that fails a test, by the first test that it fails. This is a law, and does nothing.
pub fn spelled()
    ensures found { ReadIsSpelled }
    ensures only { SpelledIsRead }
    ensures fault { FaultIsFirst }
    ensures first { FirstIsFault }
{}
