//! The media type of a file.
ghost use Rattle.std.specs.Prelude.{◌≡◌};
ghost use Rattle.site_files.specs.MediaTypes.{media_type, picture_type};

/// The media type of a picture or a font with this name.
fn picture_type(name: &[u8]) -> &'static str
    ensures { result.now ≡ picture_type name.now }
{
    if name.ends_with(b".svg") {
        "image/svg+xml"
    } else if name.ends_with(b".png") {
        "image/png"
    } else if name.ends_with(b".jpg") || name.ends_with(b".jpeg") {
        "image/jpeg"
    } else if name.ends_with(b".webp") {
        "image/webp"
    } else if name.ends_with(b".ico") {
        "image/vnd.microsoft.icon"
    } else if name.ends_with(b".woff2") {
        "font/woff2"
    } else {
        "application/octet-stream"
    }
}

/// The media type of a file with this name, by its ending.
pub(crate) fn media_type(name: &[u8]) -> &'static str
    ensures { result.now ≡ media_type name.now }
{
    if name.ends_with(b".html") {
        "text/html; charset=utf-8"
    } else if name.ends_with(b".js") {
        "text/javascript; charset=utf-8"
    } else if name.ends_with(b".css") {
        "text/css; charset=utf-8"
    } else if name.ends_with(b".txt") {
        "text/plain; charset=utf-8"
    } else if name.ends_with(b".json") {
        "application/json"
    } else if name.ends_with(b".webmanifest") {
        "application/manifest+json"
    } else {
        picture_type(name)
    }
}
