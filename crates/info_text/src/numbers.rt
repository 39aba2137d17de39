// A number that need not be there.
ghost use Rattle.std.specs.Prelude.{◌≡◌};
ghost use Rattle.reply_pieces.specs.Pieces.{piece_text};
ghost use Rattle.info_text.specs.Numbers.{number_or_none};

use reply_pieces::Piece;

// The number, or that there is none.
pub(crate) fn number_or_none<'a>(number: Option<u32>) -> Piece<'a>
    ensures { piece_text result ≡ number_or_none number }
{
    match number {
        Some(number) => Piece::Number(u64::from(number)),
        None => Piece::Text(b"none"),
    }
}
