// Names of codes.

/// The name of a channel.
pub fn channel_name(code: u16) -> &'static str {
    match code {
        0 => "x",
        1 => "y",
        2 => "x2",
        3 => "y2",
        4 => "color",
        5 => "opacity",
        6 => "size",
        7 => "shape",
        8 => "detail",
        9 => "text",
        10 => "row",
        11 => "column",
        12 => "facet",
        _ => "?",
    }
}
