// Replays the recorded answers of the Rust for the leaves: reads the list from standard input, asks the port, and writes how
// many rows of each kind there were and how many differ.
#![tactic(auto)]

mod rows;

// Standard input and output.
const STDIN_FILENO: i32 = 0;

const STDOUT_FILENO: i32 = 1;

// Longer than the list: a full buffer is a list that is not the one.
const ROOM: usize = 262144;

const HEADER: usize = 8;

// How the reading stands.
#[derive(Clone, Copy, PartialEq, Eq)]
enum Stands {
    Going,
    Done,
    Cut,
    Unknown,
}

#[derive(Clone, Copy)]
struct Tally {
    at: usize,
    stands: Stands,
    parse: u64,
    from_att: u64,
    to_att: u64,
    search: u64,
    name: u64,
    params: u64,
    differ: u64,
}

fn one_more(n: u64) -> u64 {
    std::num::wrapping_add_u64(n, 1)
}

fn counted(t: Tally, kind: u8) -> Tally {
    let mut u = t;
    match kind {
        rows::PARSE => u.parse = one_more(t.parse),
        rows::FROM_ATT => u.from_att = one_more(t.from_att),
        rows::TO_ATT => u.to_att = one_more(t.to_att),
        rows::SEARCH => u.search = one_more(t.search),
        rows::NAME => u.name = one_more(t.name),
        rows::PARAMS => u.params = one_more(t.params),
        _ => u.stands = Stands::Unknown,
    }
    u
}

fn step(s: &[u8], t: Tally) -> Tally {
    let mut u = t;
    if t.at == s.len() {
        u.stands = Stands::Done;
        return u;
    }
    match rows::read_row(s, t.at) {
        Some(row) => {
            let mut v = counted(t, row.kind);
            if v.stands == Stands::Unknown {
                return v;
            }
            v.at = row.next;
            if !row.alike {
                v.differ = one_more(t.differ);
            }
            v
        }
        None => {
            u.stands = Stands::Cut;
            u
        }
    }
}

// Whether the list begins as oracle/record begins it.
fn is_list(s: &[u8]) -> bool {
    if s.len() < HEADER {
        return false;
    }
    check::same(&s[0..HEADER], b"BRLEAF1\n")
}

// Each row takes some bytes, so there are no more turns than bytes, and one to see the end.
fn replay(s: &[u8]) -> Tally {
    let mut t = Tally {
        at: HEADER,
        stands: Stands::Going,
        parse: 0,
        from_att: 0,
        to_att: 0,
        search: 0,
        name: 0,
        params: 0,
        differ: 0,
    };
    for _ in s {
        if t.stands != Stands::Going {
            break;
        }
        t = step(s, t);
    }
    t
}

fn line(what: &[u8], n: u64) {
    io::write_all(STDOUT_FILENO, what);
    io::print_decimal(STDOUT_FILENO, n);
    io::write_all(STDOUT_FILENO, b"\n");
}

fn tell(t: Tally) {
    if t.stands == Stands::Done {
        line(b"parse rows        ", t.parse);
        line(b"from_att rows     ", t.from_att);
        line(b"to_att rows       ", t.to_att);
        line(b"search rows       ", t.search);
        line(b"name rows         ", t.name);
        line(b"parameter rows    ", t.params);
        line(b"differences       ", t.differ);
        return;
    }
    if t.stands == Stands::Unknown {
        line(
            b"leaf_replay: a row of no known kind begins at byte ",
            t.at as u64,
        );
        return;
    }
    line(
        b"leaf_replay: the list is cut: no whole row at byte ",
        t.at as u64,
    );
}

fn main() {
    let mut list = [0u8; ROOM];
    let n = io::read_full(STDIN_FILENO, &mut list);
    if ROOM <= n {
        io::write_all(STDOUT_FILENO, b"leaf_replay: the list is too long\n");
        return;
    }
    if !is_list(&list[..n]) {
        io::write_all(
            STDOUT_FILENO,
            b"leaf_replay: this is no list of leaf answers\n",
        );
        return;
    }
    tell(replay(&list[..n]));
}
