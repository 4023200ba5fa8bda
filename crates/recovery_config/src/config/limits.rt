//! Settings of streams, windows, buffers and idle connections.
ghost use Rattle.std.specs.Prelude.{◌≡◌};

use super::{IdleTimeout, TransportConfig};
use recovery_base::below::VarInt;
use recovery_base::time::Duration;

impl<F> TransportConfig<F> {
    /// Sets how many bidirectional streams the peer may have open at once (RFC 9000, 4.6). Default 100.
    pub fn max_concurrent_bidi_streams(&mut self, value: VarInt) -> &mut Self
        ensures same { result.ghost_name ≡ self.entry.ghost_name }
        ensures value { result.now ≡ record self.old { max_concurrent_bidi_streams = value } }
    {
        self.max_concurrent_bidi_streams = value;
        self
    }

    /// Sets how many unidirectional streams the peer may have open at once (RFC 9000, 4.6). Default 100.
    pub fn max_concurrent_uni_streams(&mut self, value: VarInt) -> &mut Self
        ensures same { result.ghost_name ≡ self.entry.ghost_name }
        ensures value { result.now ≡ record self.old { max_concurrent_uni_streams = value } }
    {
        self.max_concurrent_uni_streams = value;
        self
    }

    /// Sets how long the connection may be idle, in milliseconds; `None` sets no limit (RFC 9000, 10.1). Default 30000
    /// ms (RFC 9308, 3.2).
    pub fn max_idle_timeout(&mut self, value: Option<IdleTimeout>) -> &mut Self
        ensures same { result.ghost_name ≡ self.entry.ghost_name }
        ensures value { result.now ≡ record self.old { max_idle_timeout = value } }
    {
        self.max_idle_timeout = value.map(IdleTimeout::into_millis);
        self
    }

    /// Sets how many unread bytes of one stream the peer may send (RFC 9000, 4.1). Default 1250000, which is 100 ms at
    /// 12.5 MB a second.
    pub fn stream_receive_window(&mut self, value: VarInt) -> &mut Self
        ensures same { result.ghost_name ≡ self.entry.ghost_name }
        ensures value { result.now ≡ record self.old { stream_receive_window = value } }
    {
        self.stream_receive_window = value;
        self
    }

    /// Sets how many unread bytes of all streams the peer may send (RFC 9000, 4.1). Default `VarInt::MAX`, which leaves
    /// the limit to the streams.
    pub fn receive_window(&mut self, value: VarInt) -> &mut Self
        ensures same { result.ghost_name ≡ self.entry.ghost_name }
        ensures value { result.now ≡ record self.old { receive_window = value } }
    {
        self.receive_window = value;
        self
    }

    /// Sets how many unacknowledged bytes of streams the local endpoint may store. Default 10000000, eight times the
    /// window of a stream.
    pub fn send_window(&mut self, value: u64) -> &mut Self
        ensures same { result.ghost_name ≡ self.entry.ghost_name }
        ensures value { result.now ≡ record self.old { send_window = value } }
    {
        self.send_window = value;
        self
    }

    /// Sets whether streams of one priority take turns at sending; if not, each sends until it has no more. Default
    /// true.
    pub fn send_fairness(&mut self, value: bool) -> &mut Self
        ensures same { result.ghost_name ≡ self.entry.ghost_name }
        ensures value { result.now ≡ record self.old { send_fairness = value } }
    {
        self.send_fairness = value;
        self
    }

    /// Sets how long the connection may be without traffic before a keep-alive PING is sent; `None` sends none (RFC
    /// 9000, 10.1.2). Default `None`.
    pub fn keep_alive_interval(&mut self, value: Option<Duration>) -> &mut Self
        ensures same { result.ghost_name ≡ self.entry.ghost_name }
        ensures value { result.now ≡ record self.old { keep_alive_interval = value } }
    {
        self.keep_alive_interval = value;
        self
    }

    /// Sets how many bytes of CRYPTO frames out of order are stored (RFC 9000, 7.5). Default 16384.
    pub fn crypto_buffer_size(&mut self, value: usize) -> &mut Self
        ensures same { result.ghost_name ≡ self.entry.ghost_name }
        ensures value { result.now ≡ record self.old { crypto_buffer_size = value } }
    {
        self.crypto_buffer_size = value;
        self
    }

    /// Sets whether the spin bit lets observers measure the RTT (RFC 9000, 17.4). Default true.
    pub fn allow_spin(&mut self, value: bool) -> &mut Self
        ensures same { result.ghost_name ≡ self.entry.ghost_name }
        ensures value { result.now ≡ record self.old { allow_spin = value } }
    {
        self.allow_spin = value;
        self
    }

    /// Sets how many bytes of datagrams are stored until they are read; `None` accepts no datagrams (RFC 9221, 3).
    /// Default 1250000.
    pub fn datagram_receive_buffer_size(&mut self, value: Option<usize>) -> &mut Self
        ensures same { result.ghost_name ≡ self.entry.ghost_name }
        ensures value { result.now ≡ record self.old { datagram_receive_buffer_size = value } }
    {
        self.datagram_receive_buffer_size = value;
        self
    }

    /// Sets how many bytes of datagrams are stored until they are sent (RFC 9221, 5). Default 1048576.
    pub fn datagram_send_buffer_size(&mut self, value: usize) -> &mut Self
        ensures same { result.ghost_name ≡ self.entry.ghost_name }
        ensures value { result.now ≡ record self.old { datagram_send_buffer_size = value } }
    {
        self.datagram_send_buffer_size = value;
        self
    }
}
