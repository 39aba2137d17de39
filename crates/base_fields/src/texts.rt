// Texts in fields of a fixed length.
ghost use Rattle.std.specs.Prelude.{◌≡◌, ◌≢◌, ◌==◌, ◌≤◌, All, length, position};
ghost use Rattle.base_fields.specs.Texts.{until_zero};

/// The bytes before the first zero, or all of them where there is none.
pub fn before_zero(bytes: &[u8]) -> &[u8]
    ensures value { result.now ≡ until_zero bytes.now }
    ensures text { All (λ c. c ≢ 0) result.now }
    ensures sized { length result.now ≤ length bytes.now }
{
    match first_zero(bytes) {
        Some(end) => &bytes[..end],
        None => bytes,
    }
}

fn first_zero(bytes: &[u8]) -> Option<usize>
    ensures { result ≡ position (λ byte. byte == 0) bytes.now }
{
    bytes.iter().position(|byte| *byte == 0)
}
