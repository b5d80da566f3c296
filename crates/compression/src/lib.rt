// The hash value of SHA-256 over the blocks of a padded message, of one message or of several side by side: each stands in a lane of its
// own, and the same step is made in all lanes. The definitions of the standard are in specs/Fips.antt; specs/Lanes.antt says where a lane's
// words stand.
#![tactic(auto)]

ghost use Rattle.std.specs.Prelude.{◌≡◌, ℕ, ◌+◌, ◌*◌, ◌/◌, ◌%◌, ◌<◌, ◌≤◌, List, length, slice_index};
ghost use Rattle.compression.specs.Fips as Fips;
ghost use Rattle.compression.specs.Window.{Window, Turned};
ghost use Rattle.compression.specs.Lanes.{words_at, state_at, bytes_at, Kept, Put, AllTurned, Loaded, Compressed};

// The constants of section 4.2.2.
const K: [u32; 64] = [
    0x428a_2f98,
    0x7137_4491,
    0xb5c0_fbcf,
    0xe9b5_dba5,
    0x3956_c25b,
    0x59f1_11f1,
    0x923f_82a4,
    0xab1c_5ed5,
    0xd807_aa98,
    0x1283_5b01,
    0x2431_85be,
    0x550c_7dc3,
    0x72be_5d74,
    0x80de_b1fe,
    0x9bdc_06a7,
    0xc19b_f174,
    0xe49b_69c1,
    0xefbe_4786,
    0x0fc1_9dc6,
    0x240c_a1cc,
    0x2de9_2c6f,
    0x4a74_84aa,
    0x5cb0_a9dc,
    0x76f9_88da,
    0x983e_5152,
    0xa831_c66d,
    0xb003_27c8,
    0xbf59_7fc7,
    0xc6e0_0bf3,
    0xd5a7_9147,
    0x06ca_6351,
    0x1429_2967,
    0x27b7_0a85,
    0x2e1b_2138,
    0x4d2c_6dfc,
    0x5338_0d13,
    0x650a_7354,
    0x766a_0abb,
    0x81c2_c92e,
    0x9272_2c85,
    0xa2bf_e8a1,
    0xa81a_664b,
    0xc24b_8b70,
    0xc76c_51a3,
    0xd192_e819,
    0xd699_0624,
    0xf40e_3585,
    0x106a_a070,
    0x19a4_c116,
    0x1e37_6c08,
    0x2748_774c,
    0x34b0_bcb5,
    0x391c_0cb3,
    0x4ed8_aa4a,
    0x5b9c_ca4f,
    0x682e_6ff3,
    0x748f_82ee,
    0x78a5_636f,
    0x84c8_7814,
    0x8cc7_0208,
    0x90be_fffa,
    0xa450_6ceb,
    0xbef9_a3f7,
    0xc671_78f2,
];

// Eight words: a hash value, or the working variables.
#[derive(Clone, Copy)]
pub struct State {
    pub a: u32,
    pub b: u32,
    pub c: u32,
    pub d: u32,
    pub e: u32,
    pub f: u32,
    pub g: u32,
    pub h: u32,
}

// In one operation fewer than the standard's form, as maj below.
#[tactic(auto, using(crate::proofs::ChMaj::ch_short))]
fn ch(x: u32, y: u32, z: u32) -> u32
    ensures { result ≡ Fips.ch x y z }
{
    z ^ (x & (y ^ z))
}

// A round's `x ^ y` is the next one's `y ^ z`, so it is made once.
#[tactic(auto, using(crate::proofs::ChMaj::maj_short))]
fn maj(x: u32, y: u32, z: u32) -> u32
    ensures { result ≡ Fips.maj x y z }
{
    y ^ ((x ^ y) & (y ^ z))
}

// The standard's four functions under its names. One of three numbers for all would not show which two turn alone and which two shift.
fn big_sigma0(x: u32) -> u32
    ensures { result ≡ Fips.Σ0 x }
{
    x.rotate_right(2) ^ x.rotate_right(13) ^ x.rotate_right(22)
}

fn big_sigma1(x: u32) -> u32
    ensures { result ≡ Fips.Σ1 x }
{
    x.rotate_right(6) ^ x.rotate_right(11) ^ x.rotate_right(25)
}

fn small_sigma0(x: u32) -> u32
    ensures { result ≡ Fips.σ0 x }
{
    x.rotate_right(7) ^ x.rotate_right(18) ^ (x >> 3)
}

fn small_sigma1(x: u32) -> u32
    ensures { result ≡ Fips.σ1 x }
{
    x.rotate_right(17) ^ x.rotate_right(19) ^ (x >> 10)
}

// The sum that makes a word of the schedule from the words 2, 7, 15 and 16 before it.
fn extended(w14: u32, w9: u32, w1: u32, w0: u32) -> u32
    ensures { result ≡ Fips.add32 (Fips.add32 (Fips.add32 (Fips.σ1 w14) w9) (Fips.σ0 w1)) w0 }
{
    small_sigma1(w14)
        .wrapping_add(w9)
        .wrapping_add(small_sigma0(w1))
        .wrapping_add(w0)
}

fn word_at(b: &[u8; 64], i: usize) -> u32
    requires { i + 4 ≤ 64 }
    ensures { result ≡ Fips.word_at b.now i }
{
    u32::from_be_bytes([b[i], b[i + 1], b[i + 2], b[i + 3]])
}

#[tactic(auto, unfolding(crate::specs::Fips::t1))]
fn t1(s: State, k: u32, w: u32) -> u32
    ensures { result ≡ Fips.t1 s k w }
{
    s.h.wrapping_add(big_sigma1(s.e))
        .wrapping_add(ch(s.e, s.f, s.g))
        .wrapping_add(k)
        .wrapping_add(w)
}

fn t2(s: State) -> u32
    ensures { result ≡ Fips.t2 s }
{
    big_sigma0(s.a).wrapping_add(maj(s.a, s.b, s.c))
}

#[tactic(auto, unfolding(crate::specs::Fips::round))]
fn round(s: State, k: u32, w: u32) -> State
    ensures { result ≡ Fips.round s k w }
{
    let x = t1(s, k, w);
    State {
        a: x.wrapping_add(t2(s)),
        b: s.a,
        c: s.b,
        d: s.c,
        e: s.d.wrapping_add(x),
        f: s.e,
        g: s.f,
        h: s.g,
    }
}

#[tactic(auto, unfolding(crate::specs::Fips::plus))]
fn plus(s: State, v: State) -> State
    ensures { result ≡ Fips.plus s v }
{
    State {
        a: s.a.wrapping_add(v.a),
        b: s.b.wrapping_add(v.b),
        c: s.c.wrapping_add(v.c),
        d: s.d.wrapping_add(v.d),
        e: s.e.wrapping_add(v.e),
        f: s.f.wrapping_add(v.f),
        g: s.g.wrapping_add(v.g),
        h: s.h.wrapping_add(v.h),
    }
}

// A hash value, or the working variables, of each of L messages. By rows: four digests take 7 % longer with an array of `State`.
#[derive(Clone, Copy)]
pub struct Lanes<const L: usize> {
    pub a: [u32; L],
    pub b: [u32; L],
    pub c: [u32; L],
    pub d: [u32; L],
    pub e: [u32; L],
    pub f: [u32; L],
    pub g: [u32; L],
    pub h: [u32; L],
}

impl<const L: usize> Lanes<L> {
    // Every lane begins with s.
    pub fn new(s: State) -> Lanes<L>
        ensures { (m : ℕ) → m < L → state_at result m ≡ s }
    {
        Lanes {
            a: [s.a; L],
            b: [s.b; L],
            c: [s.c; L],
            d: [s.d; L],
            e: [s.e; L],
            f: [s.f; L],
            g: [s.g; L],
            h: [s.h; L],
        }
    }

    // The words of lane l. Each function that is given l asks `l < L`, which the walks over `0..L` show: a type says it no shorter.
    pub fn lane(&self, l: usize) -> State
        requires { l < L }
        ensures { result ≡ state_at self.now l }
    {
        State {
            a: self.a[l],
            b: self.b[l],
            c: self.c[l],
            d: self.d[l],
            e: self.e[l],
            f: self.f[l],
            g: self.g[l],
            h: self.h[l],
        }
    }

    // The words of lane l are those of s.
    fn put(&mut self, l: usize, s: State)
        requires { l < L }
        ensures { Put l s self.old self.new }
    {
        self.a[l] = s.a;
        self.b[l] = s.b;
        self.c[l] = s.c;
        self.d[l] = s.d;
        self.e[l] = s.e;
        self.f[l] = s.f;
        self.g[l] = s.g;
        self.h[l] = s.h;
    }
}

// Each lane becomes what the step makes of it. By an index, since eight rows are read and written side by side.
fn each_lane<const L: usize, F: Fn(State, usize) -> State>(v: &mut Lanes<L>, step: F)
    requires { (m : ℕ) → m < L → F.pre step (state_at v.old m) m }
    ensures { (m : ℕ) → m < L → F.post step (state_at v.old m) m (state_at v.new m) }
{
    for l in 0..L {
        let made = step(v.lane(l), l);
        v.put(l, made);
    }
}

// Word l of a row is x. The row is handed over, since of `w[i][l] = x` it was not proved that row i has L words.
fn put_word<const L: usize>(row: &mut [u32; L], l: usize, x: u32)
    requires { l < L }
    ensures here { slice_index row.new l ≡ x }
    ensures keeps { (m : ℕ) → (m ≡ l → ⊥) → slice_index row.new m ≡ slice_index row.old m }
{
    row[l] = x;
}

// A word t of the schedule of lane l from 16 on, with i = t % 16: it takes the place of word t - 16.
// w and l go together through five functions: a struct of both would be made for each lane, with w by `&mut` in three and by `&` in two.
// Four contracts ask a row below 16, for w has sixteen: literals and the walk of load_rows show it, and a type says it no shorter.
fn extend<const L: usize>(w: &mut [[u32; L]; 16], i: usize, l: usize) -> u32
    requires { (i < 16) × (l < L) }
    ensures turns { (b : List ℕ) (t : ℕ) → 16 ≤ t → t < 64 → t % 16 ≡ i
        → Window (Fips.schedule b 64) (words_at w.old l) t
        → (result ≡ slice_index (Fips.schedule b 64) t) × Window (Fips.schedule b 64) (words_at w.new l) (t + 1) }
    ensures keeps { Kept l w.old w.new }
{
    let x = extended(
        w[(i + 14) % 16][l],
        w[(i + 9) % 16][l],
        w[(i + 1) % 16][l],
        w[i][l],
    );
    put_word(&mut w[i], l, x);
    x
}

// Round 16 n + i of lane l, for n from 1 on. Three contracts ask `1 ≤ n < 4` for the one loop of compress: a type says it no shorter.
fn extend_round<const L: usize>(
    s: State,
    w: &mut [[u32; L]; 16],
    n: usize,
    i: usize,
    l: usize,
) -> State
    requires { (1 ≤ n) × (n < 4) × (i < 16) × (l < L) }
    ensures turns { (h : State) (b : List ℕ) → Turned h (Fips.schedule b 64) (16 * n + i) s (words_at w.old l)
        → Turned h (Fips.schedule b 64) (16 * n + (i + 1)) result (words_at w.new l) }
    ensures keeps { Kept l w.old w.new }
{
    let x = extend(w, i, l);
    round(s, K[16 * n + i], x)
}

// The sixteen rounds of lane l from 16 n on. A `for` is not unrolled, and four digests take three times as long.
// Not one function with first_rounds over a step: this step writes w, so of an `FnMut` a contract would name sixteen calls in a row.
fn next_rounds<const L: usize>(s: State, w: &mut [[u32; L]; 16], n: usize, l: usize) -> State
    requires { (1 ≤ n) × (n < 4) × (l < L) }
    ensures turns { (h : State) (b : List ℕ) → Turned h (Fips.schedule b 64) (16 * n) s (words_at w.old l)
        → Turned h (Fips.schedule b 64) (16 * n + 16) result (words_at w.new l) }
    ensures keeps { Kept l w.old w.new }
{
    let mut v = extend_round(s, w, n, 0, l);
    v = extend_round(v, w, n, 1, l);
    v = extend_round(v, w, n, 2, l);
    v = extend_round(v, w, n, 3, l);
    v = extend_round(v, w, n, 4, l);
    v = extend_round(v, w, n, 5, l);
    v = extend_round(v, w, n, 6, l);
    v = extend_round(v, w, n, 7, l);
    v = extend_round(v, w, n, 8, l);
    v = extend_round(v, w, n, 9, l);
    v = extend_round(v, w, n, 10, l);
    v = extend_round(v, w, n, 11, l);
    v = extend_round(v, w, n, 12, l);
    v = extend_round(v, w, n, 13, l);
    v = extend_round(v, w, n, 14, l);
    extend_round(v, w, n, 15, l)
}

// The sixteen rounds of every lane from 16 n on. This step writes w, and each_lane's is an `Fn`: of an `FnMut` its contract, that of lane m
// from m and its words alone, could not speak, for each call begins where the one before it left w.
fn next_lanes<const L: usize>(v: &mut Lanes<L>, w: &mut [[u32; L]; 16], n: usize)
    requires { (1 ≤ n) × (n < 4) }
    ensures { (h : ℕ → State) (b : ℕ → List ℕ) → AllTurned h b (16 * n) v.old w.old
        → AllTurned h b (16 * n + 16) v.new w.new }
{
    for l in 0..L {
        let next = next_rounds(v.lane(l), w, n, l);
        v.put(l, next);
    }
}

// Round t of lane l, for t below 16.
fn held_round<const L: usize>(s: State, w: &[[u32; L]; 16], t: usize, l: usize) -> State
    requires { (t < 16) × (l < L) }
    ensures { (h : State) (b : List ℕ) → Window (Fips.schedule b 64) (words_at w.now l) 16
        → s ≡ Fips.rounds h (Fips.schedule b 64) t → result ≡ Fips.rounds h (Fips.schedule b 64) (t + 1) }
{
    round(s, K[t], w[t][l])
}

// Rounds 0 to 15 of lane l, written out like next_rounds. With the whole schedule made before, one list serves for all, and four digests
// take 2.4 times as long.
fn first_rounds<const L: usize>(s: State, w: &[[u32; L]; 16], l: usize) -> State
    requires { l < L }
    ensures { (b : List ℕ) → Window (Fips.schedule b 64) (words_at w.now l) 16
        → Turned s (Fips.schedule b 64) 16 result (words_at w.now l) }
{
    let mut v = held_round(s, w, 0, l);
    v = held_round(v, w, 1, l);
    v = held_round(v, w, 2, l);
    v = held_round(v, w, 3, l);
    v = held_round(v, w, 4, l);
    v = held_round(v, w, 5, l);
    v = held_round(v, w, 6, l);
    v = held_round(v, w, 7, l);
    v = held_round(v, w, 8, l);
    v = held_round(v, w, 9, l);
    v = held_round(v, w, 10, l);
    v = held_round(v, w, 11, l);
    v = held_round(v, w, 12, l);
    v = held_round(v, w, 13, l);
    v = held_round(v, w, 14, l);
    held_round(v, w, 15, l)
}

// Word t of each lane's block. By an index into b: the invariant of a walk over a zip with `iter_mut` has no name for the row.
fn load_row<const L: usize>(row: &mut [u32; L], b: &[&[u8; 64]], t: usize)
    requires { (length b.now ≡ L) × (t < 16) }
    ensures { (m : ℕ) → m < L → slice_index row.new m ≡ Fips.word_at (bytes_at b.now m) (4 * t) }
{
    for (l, x) in row.iter_mut().enumerate() {
        *x = word_at(b[l], 4 * t);
    }
}

// The sixteen words of each lane's block, row by row.
fn load_rows<const L: usize>(w: &mut [[u32; L]; 16], b: &[&[u8; 64]])
    requires { length b.now ≡ L }
    ensures { Loaded L (bytes_at b.now) 16 w.new }
{
    for (t, row) in w.iter_mut().enumerate() {
        load_row(row, b, t);
    }
}

// A block of each lane is compressed into its hash value. The borrow checker does not cover an array of references whose length is L.
// `L ≤ 1024` is any bound by which the rows, 64 L bytes, are no larger than a value may be.
pub fn compress<const L: usize>(h: &mut Lanes<L>, b: &[&[u8; 64]])
    requires { (length b.now ≡ L) × (L ≤ 1024) }
    ensures { Compressed (bytes_at b.now) h.old h.new }
{
    let mut w = [[0u32; L]; 16];
    load_rows(&mut w, b);
    let mut v = *h;
    each_lane(
        &mut v,
        |s, l|
            requires { l < L }
            ensures { (p : List ℕ) → Window (Fips.schedule p 64) (words_at w l) 16
                → Turned s (Fips.schedule p 64) 16 result (words_at w l) }
        { first_rounds(s, &w, l) },
    );
    for n in 1..4 {
        next_lanes(&mut v, &mut w, n);
    }
    each_lane(
        h,
        |s, l|
            requires { l < L }
            ensures { result ≡ Fips.plus s (state_at v l) }
        { plus(s, v.lane(l)) },
    );
}

// Block i of p.
pub fn block(p: &[u8], i: usize) -> &[u8; 64]
    requires { 64 * i + 64 ≤ length p.now }
    ensures { result.now ≡ Fips.block p.now i }
{
    &p[64 * i..].as_chunks::<64>().0[0]
}

// The hash value after the whole blocks of p, from the hash value h.
pub fn hash(h: State, p: &[u8]) -> State
    ensures { result ≡ Fips.hash h p.now (length p.now / 64) }
{
    let mut v = Lanes::<1>::new(h);
    for b in p.as_chunks::<64>().0 {
        compress(&mut v, &[b]);
    }
    v.lane(0)
}
