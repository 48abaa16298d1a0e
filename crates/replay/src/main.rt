// Replays stored answers of 000, read from standard input, through the byte calls, and writes how many agree.
//
// A record: the byte lengths of coordinates, predictors, responses, output and summary; the numbers of predictors, kernel and kind;
// the bandwidth; the refusal's number; the group of the comparison that the job is drawn from (8 bytes each). Then coordinates,
// predictors and responses, and output and summary as they are after the call; before it every byte of them is A5. Each part has a
// length that there is room for below: 513 places, what 512 pantries with 7 predictors need, and some bytes more.
// Group 0 is of the weight call, with its distance in the place of the number of predictors.
#![tactic(auto)]

ghost use Rattle.std.specs.Prelude.{◌≡◌, ◌+◌, ◌≤◌, length};

use std::io;
use std::io::Stdin;

// The group of the weight call: a number, as the stored records have it.
const WEIGHTS: u64 = 0;

#[derive(Drop)]
struct Tally {
    records: u64,
    agreed: u64,
}

// The byte lengths of a record's parts, none above the room for it.
#[derive(Clone, Copy)]
struct Lengths {
    coords: usize,
    x: usize,
    y: usize,
    out: usize,
    summary: usize,
    ghost input_fits: { (coords ≤ 8208) × (x ≤ 28672) × (y ≤ 4112) },
    ghost output_fits: { (out ≤ 45056) × (summary ≤ 64) },
}

impl Lengths {
    fn of(head: &[u8; 88]) -> Lengths {
        Lengths {
            coords: length_at(head, 0, 8208),
            x: length_at(head, 8, 28672),
            y: length_at(head, 16, 4112),
            out: length_at(head, 24, 45056),
            summary: length_at(head, 32, 64),
        }
    }

    // How many bytes follow the head.
    fn all(self) -> usize
        ensures whole { result ≡ self.coords + self.x + self.y + self.out + self.summary }
        ensures most { result ≤ 86112 }
    {
        self.coords + self.x + self.y + self.out + self.summary
    }
}

// A length, or `most` where that is less.
fn length_at(head: &[u8; 88], at: usize, most: usize) -> usize
    requires { at ≤ 80 }
    ensures { result ≤ most }
{
    (wire::load(head, at) as usize).min(most)
}

// A record: its head, what its call is given, and output and summary as they are after the call.
#[derive(Clone, Copy)]
struct Record<'a> {
    head: &'a [u8; 88],
    coords: &'a [u8],
    x: &'a [u8],
    y: &'a [u8],
    out: &'a [u8],
    summary: &'a [u8],
}

impl Record<'_> {
    // The number that the call answers. Output and summary are lent beside each other, as the byte call takes them.
    fn answered(&self, out: &mut [u8], summary: &mut [u8]) -> u32 {
        let head = self.head;
        let p = wire::load(head, 40);
        let kernel = wire::load(head, 48);
        let kind = wire::load(head, 56);
        let bandwidth = wire::load(head, 64);
        if wire::load(head, 80) == WEIGHTS {
            return request::answer_number(weighing::weight_bytes(kernel, p, bandwidth, out));
        }
        let answer = calls::fit_bytes(
            self.coords,
            self.x,
            self.y,
            p,
            kernel,
            kind,
            bandwidth,
            out,
            summary,
        );
        request::answer_number(answer)
    }

    // Whether the call answers what the record says, and leaves the bytes that it says: a flag, since it is only counted.
    fn agrees(&self, out: &mut [u8], summary: &mut [u8]) -> bool {
        let number = self.answered(&mut *out, &mut *summary);
        let head = self.head;
        u64::from(number) == wire::load(head, 72) && &*out == self.out && &*summary == self.summary
    }
}

// Whether the call of a record agrees, of whole parts. Output and summary are lent with A5 in every byte.
fn replay_parts(head: &[u8; 88], lengths: Lengths, parts: &[u8]) -> bool
    requires { length parts.now ≡ lengths.coords + lengths.x + lengths.y + lengths.out + lengths.summary }
{
    let mut out = [165u8; 45056];
    let mut summary = [165u8; 64];
    let (coords, behind) = parts.split_at(lengths.coords);
    let (x, behind) = behind.split_at(lengths.x);
    let (y, behind) = behind.split_at(lengths.y);
    let (out_after, summary_after) = behind.split_at(lengths.out);
    let record = Record {
        head,
        coords,
        x,
        y,
        out: out_after,
        summary: summary_after,
    };
    record.agrees(&mut out[..lengths.out], &mut summary[..lengths.summary])
}

// Whether the call of a record agrees, whose parts are read; one whose parts are cut short differs.
fn replay_behind(stdin: &mut Stdin, head: &[u8; 88]) -> bool {
    let lengths = Lengths::of(head);
    let all = lengths.all();
    let mut parts = [0u8; 86112];
    let got = intake::read_part(stdin, &mut parts[..all]);
    got == all && replay_parts(head, lengths, &parts[..all])
}

// The same of the next record, or `None` where the input has no whole head more.
fn replay_record(stdin: &mut Stdin) -> Option<bool> {
    let mut head = [0u8; 88];
    let got = intake::read_part(stdin, &mut head);
    if got < 88 {
        return None;
    }
    Some(replay_behind(stdin, &head))
}

// A proved loop has to end, and nothing says that the input does, so the loop counts its turns.
fn replay_all(mut stdin: Stdin) -> Tally {
    let mut records = 0u64;
    let mut agreed = 0u64;
    let mut next = replay_record(&mut stdin);
    for _ in 0..1_000_000 {
        let Some(agrees) = next else {
            break;
        };
        records = records.saturating_add(1);
        agreed = agreed.saturating_add(u64::from(agrees));
        next = replay_record(&mut stdin);
    }
    Tally { records, agreed }
}

fn main(rt: HostRuntime) -> io::Result<()> {
    let Tally { records, agreed } = replay_all(rt.stdin());
    println!(rt; "{agreed} of {records} stored answers agree")
}
