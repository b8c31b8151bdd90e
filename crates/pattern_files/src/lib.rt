// For the program `listings`: a folder's pattern01.bin to pattern16.bin and its log, read and listed.
// What the system reads is assumed and not proved.
#![tactic(auto)]

ghost use Rattle.std.specs.Prelude.{suc, ◌+◌, ◌<◌, ◌≡◌, ◌++◌};
ghost use Rattle.page.specs.Text.{ascii};
ghost use Rattle.session_row.specs.Row.{most};
ghost use Rattle.listings_text.specs.Listings.{file_name};
ghost use Rattle.pattern_files.specs.SomeFiles.{Watching, SomeListings};

use event::refusal::Refused;
use listings_text::Watched;
use std::rt::Files;

// Writes what the program `listings` prints for a folder's pattern01.bin to pattern16.bin and its log.bin at the start of a lent buffer.
pub fn listings(rt: &impl Files, folder: &[u8], buffer: &mut [u8]) -> Result<usize, Refused>
    ensures { SomeListings buffer.old buffer.new result }
{
    let w = watch(rt, folder);
    let mut log = [0u8; page::SPACE];
    let l = files::read(rt, folder, b"/log.bin", &mut log);
    listings_text::write(w, &log[..l], buffer)
}

// What is known of a folder's pattern files.
fn watch(rt: &impl Files, folder: &[u8]) -> Watched
    ensures { Watching most result }
{
    let mut w = listings_text::nothing();
    for k in 0..listings_text::FILES {
        w = watch_file(rt, w, folder, k);
    }
    w
}

// With one file more, the one whose number is k + 1; one that can't be opened changes nothing.
#[tactic(auto, using(crate::proofs::Watching::not_there))]
fn watch_file(rt: &impl Files, w: Watched, folder: &[u8], k: usize) -> Watched
    requires { k < most }
    ensures { Watching k w → Watching (k + 1) result }
{
    let name = pattern_name(k);
    let file = files::open(rt, folder, &name);
    if file.is_none() {
        return w;
    }
    let mut pattern = [0u8; page::SPACE];
    let n = files::read_opened(file, &mut pattern);
    listings_text::add(w, k, &pattern[..n])
}

// The name of the pattern file whose number is k + 1, with a slash before it.
fn pattern_name(k: usize) -> [u8; 14]
    requires { k < most }
    ensures { result ≡ ascii "/" ++ file_name (suc k) ++ ascii ".bin" }
{
    let n = k as u8 + 1;
    let mut name = *b"/pattern00.bin";
    name[8] = 48 + n / 10;
    name[9] = 48 + n % 10;
    name
}
