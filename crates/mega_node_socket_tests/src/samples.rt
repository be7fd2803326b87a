//! Headers, datagrams and records of nodes.

/// One full node.
pub const ONE: &str =
    "nodes = [\"full\"]\nschema = \"CREATE SCHEMA S; CREATE TABLE User { required int64 user_id; required string name; } PRIMARY KEY(user_id), ENTITY GROUP ROOT;\"\naddresses = [\"127.0.0.1:7001\"]\n";

/// Two full nodes and a witness, with a line behind the header.
pub const THREE: &str =
    "nodes = [\"full\", \"full\", \"witness\"]\nschema = \"CREATE SCHEMA S; CREATE TABLE User { required int64 user_id; required string name; } PRIMARY KEY(user_id), ENTITY GROUP ROOT;\"\naddresses = [\"127.0.0.1:7001\", \"127.0.0.1:7002\", \"127.0.0.1:7003\"]\n---\nnot read\n";

/// Two nodes, and one address.
pub const UNADDRESSED: &str =
    "nodes = [\"full\", \"full\"]\nschema = \"CREATE SCHEMA S;\"\naddresses = [\"127.0.0.1:7001\"]\n";

/// The record of one node whose clock shows 5 and then 60.
pub const WORKED: &str =
    "start 1 1\ntick 1 5\nput 1 4d53011101010100000001000000000000000000000005\ntick 1 60\nput 1 4d5301110101010000000100000000000000000000003c\n";

/// What a node of three records at its start and first tick, at 0.
pub const FIRST_TICK: &str =
    "start 1 1\ntick 1 0\nput 1 4d53011101010100000001000000000000000000000000\nput 2 4d53011101020200000001000000000000000000000000\nput 3 4d53011101030300000001000000000000000000000000\n";

/// What node 1 records of its second start, and of its first turn then.
pub const SECOND_START: &str =
    "start 1 2\ntick 1 0\nput 1 4d53011101010100000002000000000000000000000000\nput 2 4d53011101020200000002000000000000000000000000\nput 3 4d53011101030300000002000000000000000000000000\n";

/// Datagrams that change nothing at node 1 in its start 2 and have no reply: each from a node, or from a client behind the letter `c`. Nine are no message: the
/// front of one; nothing; a `where` with a byte more, and with one less; with another first byte, another version, kind 0, and a kind above the last; with a group
/// longer than what is left. Then one for another node; of another sender; of a node, from a client; of a client, from a node; an answer to operation 1 of start 1; a
/// client's reply; a grant of the epoch of start 1.
pub const STRANGE: &str = "\
2 4d53010101\n\
2 \n\
2 4d53010102010200000001000000010000000901800000000000006500\n\
2 4d5301010201020000000100000001000000090180000000000000\n\
2 4e530101020102000000010000000100000009018000000000000065\n\
2 4d530201020102000000010000000100000009018000000000000065\n\
2 4d530100020102000000010000000100000009018000000000000065\n\
2 4d530116020102000000010000000100000009018000000000000065\n\
2 4d53010102010200000001000000010000000a018000000000000065\n\
2 4d530101020302000000010000000100000009018000000000000065\n\
2 4d530101030103000000010000000100000009018000000000000065\n\
c1 4d530101020102000000010000000100000009018000000000000065\n\
2 4d53011400010000000000000007000000025b5d\n\
2 4d5301020201010000000100000001000000090180000000000000650000000000000000\n\
c1 4d53011501000000000000000001000000026f6b\n\
1 4d53011201010100000001000000000000000000000000\n";

/// A `where` of node 2, and its answer.
pub const WHERE: &str = "2 4d530101020102000000010000000100000009018000000000000065\n";

pub const WHERE_RECORD: &str =
    "got 2 4d530101020102000000010000000100000009018000000000000065\nput 2 4d5301020102020000000100000001000000090180000000000000650000000000000000\n";

/// A client asks for nothing, and is told why not.
pub const NOTHING_ASKED: &str = "c1 4d53011400010000000000000007000000025b5d\n";

pub const NOTHING_ASKED_RECORD: &str =
    "got client 1 4d53011400010000000000000007000000025b5d\nput client 1 4d530115010000000000000000070000001272656675736564207363686564756c652031\n";

/// The record of node 2 of three, to which what node 1 asks of its cell comes.
pub const GRANTING: &str =
    "start 2 1\ntick 2 0\nput 1 4d53011102010100000001000000000000000000000000\nput 2 4d53011102020200000001000000000000000000000000\nput 3 4d53011102030300000001000000000000000000000000\ngot 1 4d53011101020200000001000000000000000000000000\ngrant 2 1 1.0\nput 1 4d53011202010200000001000000000000000000000000\n";

/// A witness is asked to invalidate a group, which is no request to it.
pub const INVALIDATE: &str =
    "1 4d5301080103010000000100000001000000090180000000000000650000000000000001\n";

pub const INVALIDATE_RECORD: &str =
    "start 3 1\ntick 3 0\ngot 1 4d5301080103010000000100000001000000090180000000000000650000000000000001\n";

/// Three full nodes.
pub const FULL: &str =
    "nodes = [\"full\", \"full\", \"full\"]\nschema = \"CREATE SCHEMA S; CREATE TABLE User { required int64 user_id; required string name; } PRIMARY KEY(user_id), ENTITY GROUP ROOT;\"\naddresses = [\"127.0.0.1:7001\", \"127.0.0.1:7002\", \"127.0.0.1:7003\"]\n";

/// A client asks node 1 for a put of user 101.
pub const PUT_ASKED: &str =
    "c1 4d53011400010000000000000007000000837b22646f223a2274786e222c2267726f7570223a5b2255736572222c5b3130315d5d2c22636865636b73223a5b5d2c227265616473223a5b5d2c22777269746573223a5b7b22707574223a2255736572222c22726f77223a7b22757365725f6964223a3130312c226e616d65223a224a6f686e227d7d5d2c2273656e6473223a5b5d7d\n";

/// One full node, under a schema with a table more.
pub const GROWN: &str =
    "nodes = [\"full\"]\nschema = \"CREATE SCHEMA S; CREATE TABLE User { required int64 user_id; required string name; } PRIMARY KEY(user_id), ENTITY GROUP ROOT; CREATE TABLE Photo { required int64 user_id; required int64 photo_id; } PRIMARY KEY(user_id, photo_id), IN TABLE User, ENTITY GROUP KEY(user_id) REFERENCES User;\"\naddresses = [\"127.0.0.1:7001\"]\n";

/// A client asks node 1 for a snapshot of user 101.
pub const READ_ASKED: &str =
    "c1 4d53011400010000000000000008000000407b22646f223a2272656164222c226d6f6465223a22736e617073686f74222c2267726f7570223a5b2255736572222c5b3130315d5d2c22726f7773223a5b5d7d\n";

/// What it records at its next start over the devices of one that has the put.
pub const GROWN_RECORD: &str =
    "start 1 2\napply 1 018000000000000065 1\ntick 1 0\nput 1 4d53011101010100000002000000000000000000000000\ngot client 1 4d53011400010000000000000008000000407b22646f223a2272656164222c226d6f6465223a22736e617073686f74222c2267726f7570223a5b2255736572222c5b3130315d5d2c22726f7773223a5b5d7d\nbegin 1.2.1 {\"do\":\"read\",\"group\":[\"User\",[101]],\"mode\":\"snapshot\",\"node\":1,\"rows\":[]}\nanswer 1.2.1 read 1 [[\"User\",{\"name\":\"John\",\"user_id\":101}]]\nput client 1 4d530115010000000000000000080000002f726561642031205b5b2255736572222c7b226e616d65223a224a6f686e222c22757365725f6964223a3130317d5d5d\n";
