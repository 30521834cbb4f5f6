use std::alloc::AllocError;

/// Adds a text with the characters escaped that mean something in SVG, cut after so many
/// characters.
pub fn push_text(svg: &mut String, text: &str, most: usize) -> Result<(), AllocError> {
    for (number, character) in text.chars().enumerate() {
        if number >= most {
            return svg.push_str("…");
        }
        match character {
            '&' => svg.push_str("&amp;")?,
            '<' => svg.push_str("&lt;")?,
            '>' => svg.push_str("&gt;")?,
            '"' => svg.push_str("&quot;")?,
            other => svg.push(other)?,
        }
    }
    Ok(())
}
