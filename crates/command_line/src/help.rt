//! The texts of the program's help.

/// The example at the end of the program's help.
pub(crate) const EXAMPLE: &str = "Example:
  printf 'GET / HTTP/1.1\\r\\nHost: h\\r\\n\\r\\n' | rbacd judge --policy examples/any_any.bin";

/// The end of the help of `check`.
pub(crate) const CHECK_HELP: &str = "The line on standard output, and the status:
  admitted: policies P bound B  0  the policy file is admitted: how many policies it has, and how many
                                   steps their conditions may take together
  refused: N NAME               1  it is refused for this reason (5 if memory ran out)
Without such a line, standard error says why. The status is then 2: the words are mistaken, or a file or the
output fails.

With --json the line is one of these objects; \"place\" is null if no part of a policy has the fault:
  {\"admitted\":true,\"bound\":B,\"policies\":P}
  {\"cause\":\"why\",\"name\":\"NAME\",\"place\":\"policy \\\"p\\\": permissions[0]\",\"refused\":N}
  {\"cause\":\"why\",\"error\":\"cannot read FILE\"}

Examples:
  rbacd check --policy examples/any_any.bin --budget 1000
  rbacd check --policy examples/any_any.bin --json";

/// The end of the help of `judge`.
pub(crate) const JUDGE_HELP: &str = "The line on standard output, and the status:
  allow M          0  the request passes; M is the number of the policy that matched, or -
  deny M           3  the request is refused
  deny steps       3  a condition took more steps than it may, so the request is refused
  refused: N NAME  1  the policy file is refused for this reason (5 if memory ran out)
  head: S          4  the head has a fault that S answers: 400, 431 or 501
  memory           5  memory ran out
Without such a line, standard error says why. The status is then 2 if the words are mistaken, or a file or the
output fails, and 6 for bad facts.

With --json the line is one of these objects; \"name\" and \"policy\" are null if no policy matched:
  {\"name\":\"p\",\"policy\":M,\"verdict\":\"allow\"}
  {\"name\":\"p\",\"policy\":M,\"verdict\":\"deny\"}
  {\"out_of_steps\":true,\"verdict\":\"deny\"}
  {\"cause\":\"why\",\"name\":\"NAME\",\"place\":\"policy \\\"p\\\": permissions[0]\",\"refused\":N}
  {\"cause\":\"why\",\"head\":S}
  {\"memory\":true}
  {\"cause\":\"why\",\"error\":\"bad facts\"}

With --explain a line follows for each policy that was tried, in order, up to the one that matched:
  M \"p\": permission                      no permission of it matches
  M \"p\": principal                       a permission matches, but no principal
  M \"p\": condition false                 its condition is false
  M \"p\": condition error E               its condition is this error, which is no match
  M \"p\": condition true steps N bound B  it matches, after N of the B steps that its condition may take
  M \"p\": match                           it matches, and has no condition
Below it, each leaf of its rules that decides, at most 8 for its permissions and 8 for its principals:
    permissions[0].and_rules.rules[1].header \"x-user\": exact \"alice\", is \"bob\"
And if its condition is an error, the part that the error is from:
    checked_condition.expr, node 3: no key \"x-user\"
With --json the object has them as \"trials\":
  {\"causes\":[\"permissions[0].not_rule.any\"],\"name\":\"p\",\"number\":M,\"reason\":\"permission\"}
  {\"causes\":[..],\"error\":\"E\",\"name\":\"p\",\"number\":M,\"reason\":\"condition error\"}
  {\"bound\":B,\"causes\":[..],\"name\":\"p\",\"number\":M,\"reason\":\"condition true\",\"steps\":N}
If memory runs out for these lines, none is printed, and standard error says so; the verdict and the status
do not change. A refusal and a head's fault are not explained. If the output fails, only a part of the lines
may be printed, and the status is 2.

With --batch each line of standard input is one of these objects, of at most 1048576 bytes with its line
feed. The facts are those of the line, of --facts, or the scheme http alone:
  {\"head\":\"GET / HTTP/1.1\\r\\nHost: h\\r\\n\\r\\n\"}
  {\"head\":\"GET / HTTP/1.1\\r\\nHost: h\\r\\n\\r\\n\",\"facts\":{\"source.port\":443}}
For each line, the object that --json prints for its head is printed. A line without a head is answered with its
number, counted from 1:
  {\"cause\":\"why\",\"line\":N}
A line may have an \"id\", which is any JSON value. It is the first member of the answer, unless the line is
too long or memory runs out for it:
  {\"id\":7,\"name\":\"p\",\"policy\":M,\"verdict\":\"allow\"}
Answers are written in blocks, and the last at the end of the input. The status is 0 if every line was answered,
whatever the answers are, and otherwise as above.

The facts are one JSON object; each member may be absent:
  texts      source.address destination.address connection.requested_server_name connection.tls_version
             connection.subject_peer_certificate connection.dns_san_peer_certificate
             connection.uri_san_peer_certificate request.scheme
  ports      source.port destination.port
  addresses  direct_remote_ip remote_ip destination_ip
  others     connection.mtls (true or false) connection.id (a number)

Examples:
  echo '{\"remote_ip\": \"10.0.0.1\", \"destination.port\": 443}' > facts.json
  printf 'GET / HTTP/1.1\\r\\nHost: h\\r\\n\\r\\n' | rbacd judge --policy filter.bin --facts facts.json
  rbacd judge --policy examples/condition.bin --explain < examples/get.http
  rbacd judge --policy examples/condition.bin --json --explain < examples/get.http
  rbacd judge --policy examples/condition.bin --batch < examples/heads.jsonl";

/// The end of the help of `check-config`.
pub(crate) const CHECK_CONFIG_HELP: &str = "The lines on standard output, with status 0:
  node \"n\"
  cluster \"c\"
  filter \"f\" budget 1000000 visits 4194304
  limits fields 64 name 128 value 4096 method 32 target 4096 text 1024
Without these lines, standard error says why. The status is then 6 for a bad configuration, and 2 if the words are
mistaken or a file fails. The settings of a server are another object: serve --check reads these.

A configuration is an object like this; each budget, each number of visits, the limits and each limit may be absent:
  {\"node\":\"n\",\"cluster\":\"c\",\"filters\":[{\"name\":\"f\",\"budget\":1000000,\"visits\":4194304}],\"limits\":{\"method\":32}}";

/// The end of the help of `replay`.
pub(crate) const REPLAY_HELP: &str = "Each line of standard input is one of these objects:
  {\"event\":\"ads_up\"}
  {\"event\":\"ads_bytes\",\"hex\":\"00\"}
  {\"event\":\"ads_lost\"}
  {\"event\":\"http_open\",\"k\":0,\"facts\":{}}
  {\"event\":\"http_bytes\",\"k\":0,\"hex\":\"47\"}
  {\"event\":\"http_closed\",\"k\":0}
For each a line of four words is printed: the bytes for the update stream or -, open or close, and the same for
the connection. If memory runs out for an event, its line is memory, and the proxy does not change.

With --connection K only the events of the update stream and those of connection K are replayed, as those of
connection 0. Nothing is printed for the others. So a record of rbacd serve is replayed connection by connection.

The status is 0 at the end of the input, 6 for a bad configuration or line, 5 if memory runs out elsewhere, and
2 if the words are mistaken, or a file, the input or the output fails.";

/// The end of the help of `control`.
pub(crate) const CONTROL_HELP: &str =
    "It takes files of filters with their names, or files of responses:
  rbacd control --listen ADDR --name F [--name F].. FILE..
  rbacd control --listen ADDR --response FILE [--response FILE]..

With --name, each snapshot has one file for each name, in the order of the names. The number of files must be a
multiple of the number of names. With --response, each response is a snapshot, with the filters that it names;
--name and other files cannot be given then.

It sends the first snapshot to the first client, and each further one after the answer to the one before. When
the client closes the stream, or the stream fails, it prints one line and ends with status 0:
  acknowledged N     N is the number of the snapshot that was acknowledged last, counted from 1
  acknowledged none  no snapshot was acknowledged

With --grpc the client speaks gRPC over HTTP/2, in cleartext with prior knowledge. Its first call is served, if its path is
  /envoy.service.discovery.v3.AggregatedDiscoveryService/StreamAggregatedResources
  /envoy.service.extension.v3.ExtensionConfigDiscoveryService/StreamExtensionConfigs
A call of another path ends with UNIMPLEMENTED, and the control plane with it.

The status is 2 if the words are mistaken, a file cannot be read or holds no response, the output fails, or it
cannot listen at the address. If memory runs out, but not while it serves, it prints memory and ends with 5.

With --log each line of that file is one of these objects:
  {\"nonce\":\"\",\"update\":\"asked\",\"version\":\"\"}
  {\"nonce\":\"1\",\"update\":\"sent\",\"version\":\"1\"}
  {\"nonce\":\"1\",\"update\":\"acknowledged\",\"version\":\"1\"}
  {\"message\":\"policy refused: N\",\"nonce\":\"1\",\"update\":\"refused\"}

Examples:
  rbacd control --listen 127.0.0.1:18000 --name f examples/any_any.bin
  rbacd control --listen 127.0.0.1:18000 --name deny --name allow examples/deny_any.bin examples/any_any.bin
  rbacd control --listen 127.0.0.1:18000 --grpc --name f examples/any_any.bin";

/// The end of the help of `proxy`.
pub(crate) const PROXY_HELP: &str =
    "In each round it connects the update stream if that is down, takes one response or the loss of the stream,
and then serves one connection to its end. It judges the requests and answers them; it forwards nothing.
A control plane that cannot be reached is a lost stream. Nothing is tried again in the same round.

Standard output stays empty. The status is 0 after the last round, 6 for a bad configuration or bad facts, and
2 if the words are mistaken, a file fails, or it cannot listen at the address. If memory runs out at the start,
it prints memory and ends with 5.

With --log each line of that file is one of these objects; \"filter\" and \"place\" are null if no part of a
policy has the fault:
  {\"stream\":\"up\"}  or unreachable, or lost
  {\"generation\":G,\"nonce\":\"1\",\"update\":\"acknowledged\",\"version\":\"1\"}
  {\"cause\":\"why\",\"filter\":\"f\",\"generation\":G,\"name\":\"NAME\",\"nonce\":\"2\",
   \"place\":\"policy \\\"p\\\": permissions[0]\",\"refused\":N,\"update\":\"refused\",\"version\":\"2\"}
  {\"connection\":K,\"end\":\"client\"}  the client closed connection K, or a read failed
  {\"connection\":K,\"end\":\"proxy\"}   the proxy closed it, or a write failed, or memory ran out
G is the number of responses that were acknowledged so far.

Example:
  rbacd proxy --config config.json --control 127.0.0.1:18000 --listen 127.0.0.1:18080 --rounds 10";

/// The end of the help of `serve`.
pub(crate) const SERVE_HELP: &str =
    "It connects to the control plane, again whenever the stream is lost, and judges the requests of many connections
at once. It forwards nothing. Every answer has the verdict as its status and in the field x-rbac-verdict.

FILE is one JSON object. Its members proxy, listen and control are required:
  {\"proxy\":{\"node\":\"n\",\"cluster\":\"c\",\"filters\":[{\"name\":\"f\"}]},
   \"listen\":\"127.0.0.1:18080\",\"control\":\"127.0.0.1:18000\"}
  proxy       a configuration, as check-config takes it: its name, and the filters that it enforces
  facts       what is known of every connection, as judge --facts takes it; addresses and ports of the peer are added
  listen      an address, unix:PATH or fd:N, or an array of them
  control     an address, unix:PATH, grpc://ADDRESS, grpc+unix:PATH, or file:PATH with a DiscoveryResponse
  grpc        how a control plane of gRPC is called: method, authority, metadata, keepalive
  admin       a port of the loopback interface, or an address: status, metrics, drain
  connections how many connections are served at once
  pending     how many bytes of answers may wait before a connection is not read
  timeouts    milliseconds: head, idle, write, drain, first_response
  backoff     milliseconds before the control plane is tried again: first, greatest
  nack_pause  milliseconds for which the update stream is not read after a refusal
  silence     seconds without a byte after which the update stream ends; 0 for never
  stale_after seconds without a control plane after which /ready is 503; 0 for never
  access_log  where requests are logged: path, and sample, one in so many that pass
  update_log  the path of the log of updates
  record      where events are recorded: path, bytes of a file, and how many older files
  until_eof   true: it drains once standard input ends
  map         which fields of a proxy in front hold the request of its client
  require     the names of fields that each request must have
  paths       strict answers 400 to paths that an application may read as another one; as_sent takes each path
--check prints what each of them means, and what is taken for those that are absent.

Standard error has the log of updates, unless update_log names a file. The status is 0 after a drain, and 6 for
bad settings. It is 2 if the words are mistaken, a file cannot be read, or it cannot listen at an address.

Example:
  rbacd serve --config serve.json";
