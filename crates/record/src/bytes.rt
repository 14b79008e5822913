// The fields of one, two and four bytes, little endian, at a byte of a record. Of a book and not of a `Record`: of any byte that the book
// has, these promise the number.
ghost use Rattle.std.specs.Prelude.{◌≡◌, ◌+◌, ◌*◌, ◌<◌, pos, length};
ghost use Rattle.paper.specs.Records.{byte as byte_of, le16 as le16_of, le32 as le32_of};

// Byte o of record r.
pub fn byte(book: &[u8], r: usize, o: usize) -> u8
    requires { 32 * r + o < length book.now }
    ensures { result ≡ byte_of book.now r o }
{
    book[32 * r + o]
}

// Each of these two is one call of its type's own method; one for both would need a trait.
#[tactic(auto, unfolding(paper::specs::Records::le16))]
pub fn le16(book: &[u8], r: usize, o: usize) -> u16
    requires { 32 * r + o + 1 < length book.now }
    ensures { result ≡ le16_of book.now r o }
{
    u16::from_le_bytes([byte(book, r, o), byte(book, r, o + 1)])
}

#[tactic(auto, unfolding(paper::specs::Records::le32, paper::specs::Records::le16))]
pub fn le32(book: &[u8], r: usize, o: usize) -> u32
    requires { 32 * r + o + 3 < length book.now }
    ensures { result ≡ le32_of book.now r o }
{
    u32::from_le_bytes([
        byte(book, r, o),
        byte(book, r, o + 1),
        byte(book, r, o + 2),
        byte(book, r, o + 3),
    ])
}

// Yields, prices, Par and Adj are signed from here on.
pub fn signed(book: &[u8], r: usize, o: usize) -> i64
    requires { 32 * r + o + 3 < length book.now }
    ensures { result ≡ pos (le32_of book.now r o) }
{
    i64::from(le32(book, r, o))
}
