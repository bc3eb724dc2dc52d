use std::str;

/// Where octets stop being UTF-8.
#[derive(Clone, Copy)]
pub(crate) struct NotText {
    /// Which octet, from 1.
    pub(crate) octet: u64,
    /// The line where it stands, from 1.
    pub(crate) line: u64,
}

/// Where octets stop being UTF-8. None where they are a text.
pub(crate) fn not_text(octets: &[u8]) -> Option<NotText> {
    let Err(error) = str::from_utf8(octets) else {
        return None;
    };
    let (text, _) = octets.split_at_checked(error.valid_up_to())?;
    let mut line = 1u64;
    for octet in text {
        if *octet == b'\n' {
            line = line.saturating_add(1);
        }
    }
    Some(NotText {
        octet: (text.len() as u64).saturating_add(1),
        line,
    })
}
