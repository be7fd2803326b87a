//! A header of a bank of two accounts, and a change of both.

/// A node, and the tables of a change.
pub const HEADER: &str = r#"nodes = ["full"]
schema = "CREATE SCHEMA Bank; CREATE TABLE Account { required int64 id; required int64 balance; } PRIMARY KEY(id), ENTITY GROUP ROOT; CREATE TABLE TwoPlan { required string gid; required int32 state; required bytes plan; } PRIMARY KEY(gid), ENTITY GROUP ROOT; CREATE TABLE AccountTwo { required int64 id; required string gid; } PRIMARY KEY(id), ENTITY GROUP KEY(id) REFERENCES Account; CREATE TABLE AccountDone { required string gid; required int64 id; required bool commit; } PRIMARY KEY(id, gid), ENTITY GROUP KEY(id) REFERENCES Account;"
"#;

/// An address for the node.
pub const ADDRESSES: &str = "addresses = [\"127.0.0.1:7001\"]\n";

/// A change of accounts 1 and 2.
pub const LINE: &str =
    r#"{"gid":"t1","parts":[{"group":["Account",[1]],"checks":[],"writes":[{"put":"Account","row":{"id":1,"balance":70}}]},{"group":["Account",[2]],"checks":[],"writes":[{"delete":"Account","key":[2]}]}]}"#;
