// A post's record put into a row, and the record of a row: what a record keeps in a byte is a whole cell of the row. Total:
// a row that is cut short takes no record, and gives one of zeros. The contracts cite specs/Records.antt.
#![tactic(auto)]

ghost use Rattle.std.specs.Prelude.{◌≡◌, map, length};
ghost use Rattle.row.specs.Rows.{post_in, known_in, past_in};
ghost use Rattle.post_row.specs.Records.{byte_of, loaded_in, record_in};

use frame::{Serial, Stamp};
use post::Post;

// Where each part of a row begins: it ends where the next one does, the log at the set of posts.
const LAST: usize = row::LAST as usize;

const KNOWN: usize = row::KNOWN as usize;

const TABLE: usize = row::TABLE as usize;

const STAMPS: usize = row::STAMPS as usize;

const WORDS: usize = row::WORDS as usize;

const LOG: usize = row::LOG as usize;

// The record in the row; what the row knows to be logged stays.
pub fn load(row: &mut [u16], p: Post)
    ensures row_after { post_in row.new ≡ loaded_in row.old p }
    ensures known { known_in row.new ≡ known_in row.old }
    ensures past { past_in row.new ≡ past_in row.old }
{
    if row.len() < row::LENGTH {
        return;
    }
    let numbers = [
        u16::from(p.lane),
        u16::from(p.sources),
        u16::from(p.dests),
        p.clock.0,
        u16::from(p.serial.0),
        u16::from(p.logged),
    ];
    row[..LAST].copy_from_slice(&numbers);
    row[row::POSTS] = u16::from(p.posts);
    widen(&p.last, &mut row[LAST..KNOWN]);
    row[TABLE..STAMPS].copy_from_slice(&p.table);
    row[STAMPS..WORDS].copy_from_slice(&p.stamps);
    row[WORDS..LOG].copy_from_slice(&p.words);
    widen(&p.log, &mut row[LOG..row::POSTS]);
}

// The record of a row.
pub fn store(row: &[u16]) -> Post
    ensures { result ≡ record_in row.now }
{
    let mut post = Post::new(0, 0, 0, 0);
    if row.len() < row::LENGTH {
        return post;
    }
    post.lane = byte(row[row::LANE]);
    post.posts = byte(row[row::POSTS]);
    post.sources = byte(row[row::SOURCES]);
    post.dests = byte(row[row::DESTS]);
    post.clock = Stamp(row[row::CLOCK]);
    post.serial = Serial(byte(row[row::SERIAL]));
    post.logged = byte(row[row::LOGGED]);
    narrow(&row[LAST..KNOWN], &mut post.last);
    post.table.copy_from_slice(&row[TABLE..STAMPS]);
    post.stamps.copy_from_slice(&row[STAMPS..WORDS]);
    post.words.copy_from_slice(&row[WORDS..LOG]);
    narrow(&row[LOG..row::POSTS], &mut post.log);
    post
}

fn byte(n: u16) -> u8
    ensures { result ≡ byte_of n }
{
    (n % 256) as u8
}

// Here and in `narrow` the index is of both: of a loop over `iter_mut().zip(from)` nothing tells what it has written, so no proof closed.
fn widen(from: &[u8], to: &mut [u16])
    requires { length to.old ≡ length from.now }
    ensures { to.new ≡ from.now }
{
    for (i, n) in from.iter().enumerate() {
        to[i] = u16::from(*n);
    }
}

fn narrow(from: &[u16], to: &mut [u8])
    requires { length to.old ≡ length from.now }
    ensures { to.new ≡ map byte_of from.now }
{
    for (i, n) in from.iter().enumerate() {
        to[i] = byte(*n);
    }
}
