// What a push on the table in a block asks for.
ghost use Rattle.std.specs.Prelude.{◌≡◌, length};
ghost use Rattle.block.specs.Block.{table_in, block_length};
ghost use Rattle.table_push.specs.Push.{request_of};

use table_push::Request;

// What a push on the table in a block asks for.
pub fn request_in(b: &[u8], sys: u8, start: u32, sectors: u32) -> Request
    requires { length b.now ≡ block_length }
    ensures { result ≡ request_of (table_in b.now) sys start sectors }
{
    Request {
        align: base::get32(b, 8),
        geometry: block_read::fields::geometry(b),
        sys,
        start,
        sectors,
    }
}
