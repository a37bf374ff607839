// The fields of a CSV record, its end, and the header. The contracts cite specs/Fields.antt.
#![tactic(auto)]

ghost use Rattle.std.specs.Prelude.{◌≡◌, true, false};
ghost use Rattle.scan.specs.Scan.{stands, read_text};
ghost use Rattle.fields.specs.Fields.{quote, read_field, read_name, read_end, read_header};

use scan::{Scan, read_number, read_text, stands_at, start_at};

// `stamp,lane,word`, and its end.
#[tactic(auto, unfolding(crate::specs::Fields::read_header))]
pub fn read_header(file: &[u8]) -> Scan
    ensures { result ≡ read_header file.now }
{
    let c = read_name(file, b"stamp", start_at(0));
    let c = read_text(file, b",", c);
    let c = read_name(file, b"lane", c);
    let c = read_text(file, b",", c);
    let c = read_name(file, b"word", c);
    read_end(file, c)
}

// A decimal field, in quotes or not.
#[tactic(auto, unfolding(crate::specs::Fields::read_field))]
pub fn read_field(file: &[u8], c: Scan) -> Scan
    ensures { result ≡ read_field file.now c }
{
    in_quotes_or_not(file, c, |c| read_number(file, c))
}

// A field of the header, in quotes or not.
#[tactic(auto, unfolding(crate::specs::Fields::read_name))]
fn read_name(file: &[u8], name: &[u8], c: Scan) -> Scan
    ensures { result ≡ read_name file.now name.now c }
{
    in_quotes_or_not(file, c, |c| read_text(file, name, c))
}

// What stands between the quotes, or alone, is read by `inner`.
fn in_quotes_or_not<F: Fn(Scan) -> Scan>(file: &[u8], c: Scan, inner: F) -> Scan
    requires { F.IsAlwaysCallable inner }
    ensures quoted { stands file.now c.at quote ≡ true → (r : Scan) × F.post inner (read_text file.now quote c) r × (result ≡ read_text file.now quote r) }
    ensures bare { stands file.now c.at quote ≡ false → F.post inner c result }
{
    if stands_at(file, c.at, b"\"") {
        let n = inner(read_text(file, b"\"", c));
        read_text(file, b"\"", n)
    } else {
        inner(c)
    }
}

// CR LF, or nothing at the end of the file.
#[tactic(auto, unfolding(crate::specs::Fields::read_end))]
pub fn read_end(file: &[u8], c: Scan) -> Scan
    ensures { result ≡ read_end file.now c }
{
    if c.at == file.len() {
        c
    } else {
        read_text(file, b"\r\n", c)
    }
}
